// The registry state (document 02, point 9): for each definition, in the registry's order, how many of its calls were substituted.
ghost use Rattle.std.specs.Prelude.{◌≡◌};
ghost use Rattle.definition.specs.Counts.{fresh_counts};

// A registry has 255 definitions at the most; what stands behind the last one's count is left as it is.
#[derive(Clone, Copy, Debug, PartialEq, Eq)]
pub struct Counts {
    pub of: [u32; 255],
}

// The state of a registry just built.
#[tactic(auto, unfolding(definition::specs::Counts::fresh_counts))]
pub fn fresh() -> Counts
    ensures { result.of ≡ fresh_counts }
{
    Counts { of: [0u32; 255] }
}
