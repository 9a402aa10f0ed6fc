// Doubly linked lists threaded through a lent table of words. Node 0 is no node: it stands for the ends of a list.
// A caller has a table that holds the list: a walk along links that are not a list need not end. So a walk is a `while`:
// an iterator has to end by itself.
// That a layout is valid is asked in six clauses and is no field of it, which is no plainer: a proof would stand beside
// the two numbers of each constant and of each definition of one, and the laws, which speak of any layout, would ask on.
#![tactic(auto)]

ghost use Rattle.std.specs.Prelude.{◌≡◌, ◌+◌, ◌<◌, ◌^◌, length, ◌==◌};
ghost use Rattle.lists.specs.Choice.{◌⇒◌else◌};
ghost use Rattle.lists.specs.Lists.{before as is_before};
ghost use Rattle.linked_lists.specs.Links.{ValidLayout, Inside, HasAddress, node_address, link_of, table_put, ends_put};
ghost use Rattle.linked_lists.specs.Links.{backward, forward, table_join, ends_join};
ghost use Rattle.linked_lists.specs.Links.{table_unlink, ends_unlink, table_insert, ends_insert, CanUnlink, CanInsert, HeldAt};
ghost use Rattle.linked_lists.specs.Links.{CanAppend, CanMove, table_move, ends_move, nodes};

/// Where a list's links stand in a table: node x has its prev word at stride * x - offset, its next word just after it.
#[derive(Clone, Copy, Debug, PartialEq, Eq)]
pub struct LinkLayout {
    pub stride: usize,
    pub offset: usize,
}

/// First and last node of a list; 0 is none.
#[derive(Clone, Copy, Debug, Default, PartialEq, Eq)]
pub struct Ends {
    pub first: u32,
    pub last: u32,
}

impl LinkLayout {
    // Where node x's prev word stands, in a table of so many words.
    fn address(self, words: usize, x: u32) -> usize
        requires valid_layout { ValidLayout self }
        requires node { x ≡ 0 → ⊥ }
        requires inside { Inside self words x }
        requires few_words { words < 2 ^ 62 }
        ensures address { result ≡ node_address self x }
        ensures in_table { result + 1 < words }
        ensures has_address { HasAddress self x }
    {
        self.stride * x as usize - self.offset
    }

    /// The node after x, 0 after the last; the first node where x is 0.
    pub fn next(self, table: &[u32], ends: Ends, x: u32) -> u32
        requires valid_layout { ValidLayout self }
        requires inside { Inside self (length table.now) x }
        ensures { result ≡ link_of forward self table.now ends x }
    {
        if x == 0 {
            ends.first
        } else {
            table[self.address(table.len(), x) + 1]
        }
    }

    // Makes v the node after x. Its twin on the other side has another word and another end: one function by a constant
    // would ask for it twice in two lines.
    fn put_next(self, table: &mut [u32], ends: Ends, x: u32, v: u32) -> Ends
        requires valid_layout { ValidLayout self }
        requires inside { Inside self (length table.old) x }
        ensures table { table.new ≡ table_put forward self x v table.old }
        ensures ends { result ≡ ends_put forward x v ends }
    {
        if x == 0 {
            return Ends { first: v, ..ends };
        }
        table[self.address(table.len(), x) + 1] = v;
        ends
    }

    // Makes v the node before x.
    fn put_prev(self, table: &mut [u32], ends: Ends, x: u32, v: u32) -> Ends
        requires valid_layout { ValidLayout self }
        requires inside { Inside self (length table.old) x }
        ensures table { table.new ≡ table_put backward self x v table.old }
        ensures ends { result ≡ ends_put backward x v ends }
    {
        if x == 0 {
            return Ends { last: v, ..ends };
        }
        table[self.address(table.len(), x)] = v;
        ends
    }

    // Links a and b to each other: b follows a, and a precedes b.
    fn join(self, table: &mut [u32], ends: Ends, a: u32, b: u32) -> Ends
        requires valid_layout { ValidLayout self }
        requires inside_a { Inside self (length table.old) a }
        requires inside_b { Inside self (length table.old) b }
        ensures table { table.new ≡ table_join self a b table.old }
        ensures ends { result ≡ ends_join a b ends }
    {
        let ends = self.put_next(table, ends, a, b);
        self.put_prev(table, ends, b, a)
    }

    /// Takes node x out of its list.
    pub fn unlink(self, table: &mut [u32], ends: Ends, x: u32) -> Ends
        requires { CanUnlink self table.old ends x }
        ensures table { table.new ≡ table_unlink self table.old ends x }
        ensures ends { result ≡ ends_unlink self table.old ends x }
    {
        let at = self.address(table.len(), x);
        let p = table[at];
        let n = table[at + 1];
        self.join(table, ends, p, n)
    }

    /// Puts node x after node p, or at the front where p is 0.
    pub fn insert_after(self, table: &mut [u32], ends: Ends, p: u32, x: u32) -> Ends
        requires { CanInsert self table.old ends p x }
        ensures table { table.new ≡ table_insert self table.old ends p x }
        ensures ends { result ≡ ends_insert self table.old ends p x }
    {
        let n = self.next(table, ends, p);
        let at = self.address(table.len(), x);
        let ends = self.put_next(table, ends, p, x);
        table[at] = p;
        table[at + 1] = n;
        self.put_prev(table, ends, n, x)
    }

    /// Takes node x out and puts it after node p, or at the front where p is 0.
    pub fn relink(self, table: &mut [u32], ends: Ends, x: u32, p: u32) -> Ends
        requires { CanMove self x p table.old ends }
        ensures table { table.new ≡ table_move self x p table.old ends }
        ensures ends { result ≡ ends_move self x p table.old ends }
    {
        let without = self.unlink(table, ends, x);
        self.insert_after(table, without, p, x)
    }

    /// Puts node x behind the last. Which nodes are the first of a list follows no pattern, so no branch asks for it: in
    /// an empty list x's own next word is written where the last node's would be, and is then overwritten.
    pub fn append(self, table: &mut [u32], ends: Ends, x: u32) -> Ends
        requires { CanAppend self table.old ends x }
        ensures table { table.new ≡ table_insert self table.old ends ends.last x }
        ensures ends { result ≡ ends_insert self table.old ends ends.last x }
    {
        let p = ends.last;
        let before = self.address(table.len(), either(p, x, p));
        let at = self.address(table.len(), x);
        let first = either(p, x, ends.first);
        table[before + 1] = x;
        table[at] = p;
        table[at + 1] = 0;
        Ends { first, last: x }
    }

    /// Is a before b in the list: a walk from a to the end. No node is before itself.
    pub fn before(self, table: &[u32], ends: Ends, a: u32, b: u32) -> bool
        requires valid_layout { ValidLayout self }
        requires held_at { HeldAt self table.now ends a }
        ensures { result ≡ is_before a b (nodes self table.now ends) }
    {
        let mut x = self.next(table, ends, a);
        while x != b {
            if x == 0 {
                return false;
            }
            x = self.next(table, ends, x);
        }
        x != 0
    }
}

// One word or another: by whether there is a node.
fn either(node: u32, without: u32, with: u32) -> u32
    ensures { result ≡ ((node == 0) ⇒ without else with) }
{
    if node == 0 { without } else { with }
}
