// The page of an image (a saved chart): one row of 25 bytes for each edge.
// Each function but print writes a text at a place of out and returns the place behind it: bytes and place stay two, and
// the columns are written by hand, since each clause so is one equation of the bytes and both places.
#![tactic(auto)]

ghost use Rattle.std.specs.Prelude.{◌≡◌, ◌+◌, ◌*◌, ◌/◌, ◌≤◌, length, replicate};
ghost use Rattle.decimal.specs.Stored.{Stored};
ghost use Rattle.page.specs.Rows.{column, cell, reading_column, row_of, edge_read, rows_from};
ghost use Rattle.page.specs.Page.{page_of, printed, no_page_code, no_page_offset, told};
ghost use Rattle.page.specs.declared.NoPage.TheVariants.{Image};

use decimal::bytes;
use graph::Reading;
use image::by_name::Part;
use image::layout::EDGE;
use image_check::{BadImage, check_saved};

/// Why there is no page of an image.
#[derive(Clone, Copy, Debug, PartialEq, Eq)]
pub enum NoPage {
    /// The words do not load.
    Image(BadImage),
    /// There are fewer bytes than 25 an edge.
    Short,
}

impl NoPage {
    /// The code of the words that do not load, or 107.
    pub fn code(self) -> u32
        ensures { result ≡ no_page_code self }
    {
        match self {
            NoPage::Image(bad) => bad.code(),
            NoPage::Short => 107,
        }
    }

    /// The offset of the first bad word, from 0 at the first word; 0 where none is bad.
    pub fn offset(self) -> usize
        ensures { result ≡ no_page_offset self }
    {
        match self {
            NoPage::Image(bad) => bad.offset() as usize,
            NoPage::Short => 0,
        }
    }
}

impl From<BadImage> for NoPage {
    ghost from_gives = { λ cause none. none ≡ Image cause };

    fn from(cause: BadImage) -> NoPage {
        NoPage::Image(cause)
    }
}

/// What C is told: a code, and how many bytes were written; with a code none, and bytes is the offset of the first bad
/// word, else 0.
#[repr(C)]
#[derive(Clone, Copy, Debug, PartialEq, Eq)]
pub struct Printed {
    pub code: u32,
    pub bytes: usize,
}

impl From<Result<usize, NoPage>> for Printed {
    ghost from_gives = { λ came answer. answer ≡ told came };

    fn from(came: Result<usize, NoPage>) -> Printed {
        match came {
            Ok(bytes) => Printed { code: 0, bytes },
            Err(none) => Printed {
                code: none.code(),
                bytes: none.offset(),
            },
        }
    }
}

fn spaces(out: &mut [u8], at: usize, count: usize) -> usize
    requires { at + count ≤ length out.old }
    ensures { Stored (replicate count 32) at out.old out.new result }
{
    let end = at + count;
    out[at..end].fill(b' ');
    end
}

// A number, right-aligned. No twin of the text's digits: it is padded from the left as it is written.
fn column(out: &mut [u8], at: usize, width: usize, n: u32) -> usize
    requires { at + width ≤ length out.old }
    ensures { Stored (column width n) at out.old out.new result }
{
    if width == 0 {
        return at;
    }
    if n < 10 {
        let q = spaces(out, at, width - 1);
        out[q] = b'0' + n as u8;
        return q + 1;
    }
    let p = column(out, at, width - 1, n / 10);
    out[p] = b'0' + (n % 10) as u8;
    p + 1
}

// A reading, right-aligned in six columns.
fn reading(out: &mut [u8], at: usize, reading: Reading) -> usize
    requires { at + 6 ≤ length out.old }
    ensures { Stored (reading_column reading) at out.old out.new result }
{
    match reading {
        Reading::Untested => bytes(out, at, b"     -"),
        Reading::Silent => bytes(out, at, b"silent"),
        Reading::Heard(decimetres) => column(out, at, 6, decimetres),
    }
}

// A column, and the space behind it.
fn cell(out: &mut [u8], at: usize, width: usize, n: u32) -> usize
    requires { at + width + 1 ≤ length out.old }
    ensures { Stored (cell width n) at out.old out.new result }
{
    let p = column(out, at, width, n);
    out[p] = b' ';
    p + 1
}

// The row of an edge by its record.
fn row(out: &mut [u8], at: usize, edge: &[u32]) -> usize
    requires words { 6 ≤ length edge.now }
    requires room { at + 25 ≤ length out.old }
    ensures { Stored (row_of (edge_read edge.now)) at out.old out.new result }
{
    let a = cell(out, at, 4, edge[0]);
    let b = cell(out, a, 4, edge[1]);
    let c = cell(out, b, 4, edge[2]);
    let d = cell(out, c, 2, edge[3]);
    let e = reading(out, d, Reading::from_words(edge[4], edge[5]));
    out[e] = b'\n';
    e + 1
}

// The rows of records of six words.
fn rows(out: &mut [u8], records: &[u32]) -> usize
    requires { 25 * (length records.now / 6) ≤ length out.old }
    ensures { Stored (rows_from (length records.now / 6) records.now) 0 out.old out.new result }
{
    let mut at = 0;
    for edge in records.chunks_exact(EDGE) {
        at = row(out, at, edge);
    }
    at
}

/// Writes the page of an image to the front of page, and answers how many bytes it has. Words that do not load are
/// refused first, then a page of under 25 bytes an edge. A refusal leaves the page as it was, and bytes behind the rows
/// are so in any case.
pub fn print(words: &[u32], page: &mut [u8]) -> Result<usize, NoPage>
    ensures { printed (told result) page.new ≡ page_of words.now page.old }
{
    check_saved(words)?;
    let records = Part::Edges.within(words);
    let count = records.len() / EDGE;
    if page.len() < 25 * count {
        return Err(NoPage::Short);
    }
    Ok(rows(page, records))
}
