// Small functions of numbers.
ghost use Rattle.std.specs.Prelude.{◌≡◌};
ghost use Rattle.lists.specs.Choice.{if_equal};

/// x where m and n are the same, else y. Nothing here calls it: what may not change, as DECISIONS 171 names it.
pub fn choose(m: u32, n: u32, x: u32, y: u32) -> u32
    ensures { result ≡ if_equal m n x y }
{
    if m == n { x } else { y }
}
