// One record: how many of its words are sound. A number and no Result: it is what `passed` counts, from which the laws on the
// first bad word tell its offset.
ghost use Rattle.std.specs.Prelude.{◌≡◌, true, [], ◌∷◌, ◌==◌};
ghost use Rattle.lists.specs.Choice.{◌⇒◌else◌, within};
ghost use Rattle.graph.specs.Graph.{is_reading};
ghost use Rattle.image_check.specs.Checks.{passed, part_limits, vertex_tests, field_tests};

/// Whether a number is one of 1 to cap.
pub fn numbered(cap: u32, n: u32) -> bool
    ensures { result ≡ within 1 cap n }
{
    1 <= n && n <= cap
}

/// The most decimetres that a reading of this kind has.
fn most(kind: u32) -> u32
    ensures { result ≡ ((kind == 2) ⇒ 9999 else 0) }
{
    if kind == 2 { 9999 } else { 0 }
}

/// Whether a kind and decimetres are those of a reading.
pub fn reading(k: u32, d: u32) -> bool
    ensures { result ≡ is_reading k d }
{
    k <= 2 && d <= most(k)
}

/// Of 3: number, type, value. A word is always a value.
pub fn good_vertex(cap: u32, types: u32, fresh: bool, n: u32, t: u32) -> u32
    ensures { result ≡ passed (vertex_tests (part_limits cap types) (λ m. fresh) (n ∷ t ∷ 0 ∷ [])) }
{
    if !numbered(cap, n) || !fresh {
        return 0;
    }
    if t < types { 3 } else { 1 }
}

/// Of the 6 words of an edge record, behind number, alpha and omega: type, reading kind, decimetres.
pub fn good_fields(types: u32, sort: u32, kind: u32, heard: u32) -> u32
    ensures { result ≡ passed (true ∷ true ∷ true ∷ field_tests types sort kind heard) }
{
    if types <= sort {
        return 3;
    }
    if 2 < kind {
        return 4;
    }
    if reading(kind, heard) { 6 } else { 5 }
}
