// Runs the text functions on worked examples (REFERENCE 11.2 to 11.4): a line of output for each.
#![tactic(auto)]

use text::Unreadable;

// A write that fails is not told.
fn write_bytes(rt: &impl Print, bytes: &[u8]) {
    let _ = rt.write_all(bytes);
}

fn report(rt: &impl Print, good: bool, name: &[u8]) {
    if good {
        write_bytes(rt, b"ok ");
    } else {
        write_bytes(rt, b"WRONG ");
    }
    write_bytes(rt, name);
    write_bytes(rt, b"\n");
}

fn all_sevens(words: &[u32]) -> bool {
    words.iter().all(|&word| word == 7)
}

// 1 2 3 4 5 1 2 3 4 5 ..
fn counts(words: &[u32]) -> bool {
    words
        .iter()
        .enumerate()
        .all(|(i, &word)| word as usize == i % 5 + 1)
}

// The bytes of line, again and again.
fn repeat(text: &mut [u8], line: &[u8]) {
    if line.is_empty() {
        return;
    }
    for (i, byte) in text.iter_mut().enumerate() {
        *byte = line[i % line.len()];
    }
}

fn read_as(bytes: &[u8], calls: &mut [u32; 5000], want: &[u32]) -> bool {
    text::read(bytes, calls) == Ok(want.len())
        && calls.starts_with(want)
        && all_sevens(&calls[want.len()..])
}

fn lines_as(bytes: &[u8], calls: &mut [u32; 5000]) -> bool {
    text::read(bytes, calls) == Ok(5000) && counts(calls)
}

fn refused_as(bytes: &[u8], calls: &mut [u32; 5000], want: u32) -> bool {
    text::read(bytes, calls) == Err(Unreadable(want)) && all_sevens(calls)
}

fn reads(rt: &impl Print, bytes: &[u8], want: &[u32], name: &[u8]) {
    let mut calls = [7u32; 5000];
    report(rt, read_as(bytes, &mut calls, want), name);
}

fn refuses(rt: &impl Print, bytes: &[u8], want: u32, name: &[u8]) {
    let mut calls = [7u32; 5000];
    report(rt, refused_as(bytes, &mut calls, want), name);
}

// The first n bytes of a text.
fn refuses_front(rt: &impl Print, text: &[u8], n: usize, want: u32, name: &[u8]) {
    if n <= text.len() {
        refuses(rt, &text[..n], want, name);
    }
}

fn reads_front(rt: &impl Print, text: &[u8], n: usize, name: &[u8]) {
    let mut calls = [7u32; 5000];
    if n <= text.len() {
        report(rt, lines_as(&text[..n], &mut calls), name);
    }
}

// The text and then 255s.
fn same_text(out: &[u8; 100000], count: usize, want: &[u8]) -> bool {
    count == want.len()
        && out.starts_with(want)
        && out[want.len()..].iter().all(|&byte| byte == 255)
}

fn writes(rt: &impl Print, codes: &[u32], image: &[u32], want: &[u8], name: &[u8]) {
    let mut out = [255u8; 100000];
    let n = text::write(codes, image, &mut out);
    report(rt, same_text(&out, n, want), name);
}

fn writes_unreadable(rt: &impl Print, number: u32, want: &[u8], name: &[u8]) {
    let mut out = [255u8; 100000];
    let n = text::write_unreadable(number, &mut out);
    report(rt, same_text(&out, n, want), name);
}

fn good_texts(rt: &impl Print) {
    reads(rt, b"", &[], b"no input");
    reads(rt, b"0 0 0 0 0\n", &[0, 0, 0, 0, 0], b"zeros");
    reads(rt, b"1 2 3 4 5\n", &[1, 2, 3, 4, 5], b"one line");
    reads(
        rt,
        b"4294967295 0 10 100 4294967295\n",
        &[4294967295, 0, 10, 100, 4294967295],
        b"4294967295",
    );
    reads(
        rt,
        b"1 1 0 7 0\n8 1 2 450 0\n44 1 0 0 0\n",
        &[1, 1, 0, 7, 0, 8, 1, 2, 450, 0, 44, 1, 0, 0, 0],
        b"three lines",
    );
}

fn large_numbers(rt: &impl Print) {
    refuses(rt, b"4294967296 0 0 0 0\n", 1, b"4294967296");
    refuses(rt, b"0 0 0 0 10000000000\n", 1, b"eleven digits");
    refuses(rt, b"1 2 3 4 05\n", 1, b"a leading zero");
    refuses(rt, b"00 2 3 4 5\n", 1, b"two zeros");
}

fn no_digits(rt: &impl Print) {
    refuses(rt, b"1 2 3 4 x\n", 1, b"a letter");
    refuses(rt, b"1 2 3 4 -5\n", 1, b"a sign");
    refuses(rt, b"1 2 3 4 5/\n", 1, b"a byte below the digits");
    refuses(rt, b"1 2 3 4 5:\n", 1, b"a byte above the digits");
}

fn spaces(rt: &impl Print) {
    refuses(rt, b"\n", 1, b"an empty line");
    refuses(rt, b"1  2 3 4 5\n", 1, b"two spaces");
    refuses(rt, b"1 2 3 4 5 \n", 1, b"a trailing space");
    refuses(rt, b" 1 2 3 4 5\n", 1, b"a leading space");
}

fn other_lines(rt: &impl Print) {
    refuses(rt, b"1 2 3 4\n", 1, b"four numbers");
    refuses(rt, b"1 2 3 4 5 6\n", 1, b"six numbers");
    refuses(rt, b"1 2 3 4 5\r\n", 1, b"a carriage return");
    refuses(
        rt,
        b"1 2 3 4 5\n1 2 3 4\n\n",
        2,
        b"the first of two bad lines",
    );
}

fn rests(rt: &impl Print) {
    refuses(rt, b"1 2 3 4 5", 1, b"a line without its newline");
    refuses(rt, b"1 2 3 4 5\n ", 2, b"a rest of one space");
    refuses(
        rt,
        b"1 2 3 4 5\n6 7 8 9 10",
        2,
        b"a second line without its newline",
    );
}

// A text of 60,001 bytes, of which each takes the front.
fn zeros(rt: &impl Print, text: &mut [u8]) {
    repeat(text, b"0");
    refuses_front(rt, text, 60000, 1, b"60,000 bytes");
    refuses_front(rt, text, 60001, 0, b"60,001 bytes");
}

fn newlines(rt: &impl Print, text: &mut [u8]) {
    repeat(text, b"\n");
    refuses_front(rt, text, 1000, 1, b"1,000 empty lines");
    refuses_front(rt, text, 1001, 1001, b"1,001 empty lines");
    refuses_front(rt, text, 60000, 1001, b"60,000 empty lines");
    refuses_front(rt, text, 60001, 0, b"60,001 empty lines");
}

fn lines(rt: &impl Print, text: &mut [u8]) {
    repeat(text, b"1 2 3 4 5\n");
    refuses_front(rt, text, 9991, 1000, b"999 lines and a rest");
    reads_front(rt, text, 10000, b"1,000 lines");
    refuses_front(rt, text, 10001, 1001, b"1,000 lines and a rest");
    refuses_front(rt, text, 10010, 1001, b"1,001 lines");
}

fn sizes(rt: &impl Print) {
    let mut text = [0u8; 60001];
    zeros(rt, &mut text);
    newlines(rt, &mut text);
    lines(rt, &mut text);
}

fn written(rt: &impl Print) {
    writes(
        rt,
        &[],
        &[0, 0, 6, 6, 6, 6],
        b"image 0 0 6 6 6 6\n",
        b"no answers",
    );
    writes(rt, &[], &[], b"image\n", b"no words");
    writes(
        rt,
        &[0, 450, 16, 0, 0, 0],
        &[1, 4294967295, 9, 10],
        b"done 450\nrefused 16\ndone 0\nimage 1 4294967295 9 10\n",
        b"answers",
    );
}

fn written_example(rt: &impl Print) {
    writes(
        rt,
        &[0, 1, 0, 1, 0, 1, 0, 1, 0, 0, 0, 2, 0, 0, 0, 1, 0, 450],
        &[
            2, 1, 6, 14, 20, 22, 1, 0, 7, 1, 2, 0, 9, 1, 1, 1, 2, 0, 2, 450, 2, 3,
        ],
        b"done 1\ndone 1\ndone 1\ndone 1\ndone 0\ndone 2\ndone 0\ndone 1\ndone 450\nimage 2 1 6 14 20 22 1 0 7 1 2 0 9 \
          1 1 1 2 0 2 450 2 3\n",
        b"the nine calls of chartrun",
    );
}

// Of more than there is room for, nothing.
fn written_nothing(rt: &impl Print) {
    let codes = [0u32; 2002];
    let image = [0u32; 7207];
    writes(rt, &codes, &[], b"", b"1,001 answers");
    writes(rt, &[], &image, b"", b"an image of 7,207 words");
}

fn written_unreadable(rt: &impl Print) {
    writes_unreadable(rt, 0, b"unreadable 0\n", b"unreadable 0");
    writes_unreadable(rt, 1001, b"unreadable 1001\n", b"unreadable 1001");
    writes_unreadable(
        rt,
        4294967295,
        b"unreadable 4294967295\n",
        b"unreadable 4294967295",
    );
}

fn main(rt: HostRuntime) {
    good_texts(&rt);
    large_numbers(&rt);
    no_digits(&rt);
    spaces(&rt);
    other_lines(&rt);
    rests(&rt);
    sizes(&rt);
    written(&rt);
    written_example(&rt);
    written_nothing(&rt);
    written_unreadable(&rt);
}
