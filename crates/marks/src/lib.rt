// The standing marks: one 64-bit set, and the place and the name of each. The words of the marks are a slice, whose
// length is required: a part of a longer array can be lent too, which an array type would rule out (DECISIONS 89).
#![tactic(auto)]

pub mod codes; // may a mark be set, named, or gone to

ghost use Rattle.std.specs.Prelude.{◌≡◌, true, false, not, ◌&&◌, List, ℕ, ◌-◌, ◌%◌, ltb, length, ◌==◌};
ghost use Rattle.std.specs.Int.Count.{ones};
ghost use Rattle.lists.specs.Choice.{◌⇒◌else◌};
ghost use Rattle.history.specs.Machine.{MarkPlace, is_mark, gone, at, no_marks, is_name};
ghost use Rattle.history.specs.Machine.{marked, cut_marks, count_standing, distance};
ghost use Rattle.marks.specs.Marked.{mark_words, in_set, place_in, with_mark, without_mark, cut_set, Marked};
ghost use Rattle.marks.specs.Named.{name_of, name_at, name_in, name_set, mark_put, bears_in, holder_in, mark_found};

use graph::MOST_MARKS;

/// The words lent for the marks: a place each, then the two words of the name of each.
pub const WORDS: usize = 3 * (MOST_MARKS as usize);

/// The marks that stand: bit a - 1 is mark a's.
#[derive(Clone, Copy, Debug, PartialEq, Eq)]
pub struct MarkSet {
    pub bits: u64,
}

/// The two words of a name; two zeros are none.
#[derive(Clone, Copy, Debug, PartialEq, Eq)]
pub struct Name {
    pub first: u32,
    pub second: u32,
}

impl Name {
    pub const NONE: Name = Name {
        first: 0,
        second: 0,
    };

    /// Is it a name?
    #[inline(always)]
    pub fn is_given(self) -> bool
        ensures { result ≡ is_name (name_of self) }
    {
        self.first != 0 || self.second != 0
    }
}

// Is it the number of a mark?
#[inline(always)]
fn is_mark(a: u32) -> bool
    ensures { result ≡ is_mark a }
{
    (1..=MOST_MARKS).contains(&a)
}

/// The place of mark a; 0 where a is no mark.
#[inline(always)]
pub fn place_of(words: &[u32], a: u32) -> u32
    requires { length words.now ≡ mark_words }
    ensures { result ≡ place_in words.now a }
{
    if !is_mark(a) {
        return 0;
    }
    words[(a - 1) as usize]
}

// Where the two words of the name of mark a begin.
#[inline(always)]
fn name_at(a: u32) -> usize
    requires { is_mark a ≡ true }
    ensures { result ≡ name_at a }
{
    (MOST_MARKS + 2 * (a - 1)) as usize
}

// The words of the name of mark a.
#[inline(always)]
fn name_in(words: &[u32], a: u32) -> Name
    requires { (length words.now ≡ mark_words) × (is_mark a ≡ true) }
    ensures { name_of result ≡ name_in words.now a }
{
    let at = name_at(a);
    Name {
        first: words[at],
        second: words[at + 1],
    }
}

/// Mark a has this name. Where a is no mark, nothing changes.
#[inline(always)]
pub fn name_mark(words: &mut [u32], a: u32, name: Name)
    requires { length words.old ≡ mark_words }
    ensures { words.new ≡ name_set a (name_of name) words.old }
{
    if is_mark(a) {
        let at = name_at(a);
        words[at] = name.first;
        words[at + 1] = name.second;
    }
}

impl MarkSet {
    /// No mark stands.
    #[inline(always)]
    pub fn none() -> MarkSet
        ensures value { result.bits ≡ 0 }
        ensures by_index { (words : List ℕ) → length words ≡ mark_words → Marked no_marks result.bits words }
    {
        MarkSet { bits: 0 }
    }

    /// Does mark a stand? No where a is no mark.
    #[inline(always)]
    pub fn has(self, a: u32) -> bool
        ensures { result ≡ in_set self.bits a }
    {
        is_mark(a) && (self.bits >> (a - 1)) % 2 == 1
    }

    /// How many marks stand (kind 50), the count of ones of the set.
    #[inline(always)]
    pub fn len(self) -> u32
        ensures value { result ≡ ones self.bits }
        ensures by_index { (words : List ℕ) → (ms : ℕ → MarkPlace) → Marked ms self.bits words → result ≡ count_standing ms }
    {
        self.bits.count_ones()
    }

    // Does mark a stand and have this name?
    #[inline(always)]
    fn bears(self, words: &[u32], name: Name, a: u32) -> bool
        requires { length words.now ≡ mark_words }
        ensures { result ≡ bears_in self.bits words.now (name_of name) a }
    {
        self.has(a) && name.is_given() && name_in(words, a) == name
    }

    /// The standing mark, other than `but`, that has this name.
    pub fn holder(self, words: &[u32], but: u32, name: Name) -> Option<u32>
        requires { length words.now ≡ mark_words }
        ensures { result ≡ mark_found (holder_in self.bits words.now but (name_of name)) }
    {
        (1..MOST_MARKS + 1).find(|&a| self.bears(words, name, a) && a != but)
    }

    /// Mark a is set (kind 17) at place p, with no name. Where a is no mark, nothing changes.
    #[inline(always)]
    pub fn set_mark(self, words: &mut [u32], a: u32, p: u32) -> MarkSet
        requires { length words.old ≡ mark_words }
        ensures value { result.bits ≡ with_mark a self.bits }
        ensures words_after { words.new
            ≡ (is_mark a ⇒ mark_put a p words.old else words.old) }
        ensures by_index { (ms : ℕ → MarkPlace) → is_mark a ≡ true → in_set self.bits a ≡ false
            → Marked ms self.bits words.old → Marked (marked a (at p) ms) result.bits words.new }
    {
        if !is_mark(a) {
            return self;
        }
        let k = a - 1;
        words[k as usize] = p;
        name_mark(words, a, Name::NONE);
        MarkSet {
            bits: self.bits | (1 << k),
        }
    }

    /// Mark a is dropped (kind 18). Where it does not stand, nothing changes.
    #[inline(always)]
    pub fn without(self, a: u32) -> MarkSet
        ensures value { result.bits ≡ without_mark a self.bits }
        ensures by_index { (words : List ℕ) → (ms : ℕ → MarkPlace) → in_set self.bits a ≡ true
            → Marked ms self.bits words → Marked (marked a gone ms) result.bits words }
    {
        if !self.has(a) {
            return self;
        }
        let k = a - 1;
        MarkSet {
            bits: self.bits ^ (1 << k),
        }
    }

    // Mark a, which stands, goes if its place is above p.
    #[inline(always)]
    fn cut_mark(self, words: &[u32], a: u32, p: u32) -> MarkSet
        requires { (length words.now ≡ mark_words) × (in_set self.bits a ≡ true) }
        ensures { result.bits ≡ (ltb p (place_in words.now a) ⇒ without_mark a self.bits else self.bits) }
    {
        let k = a - 1;
        if words[k as usize] <= p {
            return self;
        }
        MarkSet {
            bits: self.bits ^ (1 << k),
        }
    }

    /// A change at place p: the marks whose place is above p go.
    pub fn cut(self, words: &[u32], p: u32) -> MarkSet
        requires { length words.now ≡ mark_words }
        ensures value { result.bits ≡ cut_set p words.now self.bits }
        ensures by_index { (ms : ℕ → MarkPlace) → Marked ms self.bits words.now
            → Marked (cut_marks p ms) result.bits words.now }
    {
        // The marks above a, still to be looked at, are the digits of `left`: from one that stands the next is found by
        // counting zeros. A `for` over all marks was tried, and took 3.1 times the C by hand where one stood (DECISIONS 46).
        let mut set = self;
        let mut left = self.bits;
        let mut a: u32 = 0;
        while left != 0 {
            let zeros = left.trailing_zeros();
            a = a + zeros + 1;
            set = set.cut_mark(words, a, p);
            left = (left >> zeros) / 2;
        }
        set
    }
}

/// The steps between two places: kind 49, and the ways of kinds 21 and 57.
#[inline(always)]
pub fn between(p: u32, q: u32) -> u32
    ensures { result ≡ distance p q }
{
    p.abs_diff(q)
}
