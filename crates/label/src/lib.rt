// Labels as masks of owners: the subset test and the join.
#![tactic(auto)]

ghost use Rattle.std.specs.Prelude.{◌≡◌};
ghost use Rattle.label.specs.Label.{is_subset, flows, join};

// Whether each bit of k is also in m.
pub fn is_subset(k: u8, m: u8) -> bool
    ensures { result ≡ is_subset k m }
{
    k & m == k
}

// Whether label k flows to label m: the same test under the name that the claims give it.
pub fn flows(k: u8, m: u8) -> bool
    ensures { result ≡ flows k m }
{
    is_subset(k, m)
}

// The bits of either label.
pub fn join(k: u8, m: u8) -> u8
    ensures { result ≡ join k m }
{
    k | m
}
