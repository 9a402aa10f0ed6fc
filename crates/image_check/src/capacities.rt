// The counts of the header, held against the capacities.
ghost use Rattle.std.specs.Prelude.{◌≡◌};
ghost use Rattle.image_check.specs.Checks.{sound_counts};

/// Whether the counts are within the capacities, and no edge is without a vertex.
#[tactic(auto, unfolding(crate::specs::Checks::sound_counts))]
pub fn counts(vcap: u32, ecap: u32, v: u32, e: u32) -> bool
    ensures { result ≡ sound_counts vcap ecap v e }
{
    v <= vcap && e <= ecap && (v != 0 || e == 0)
}
