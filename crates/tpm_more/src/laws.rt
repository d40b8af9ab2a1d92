//! Laws of the lists of capabilities.

ghost use Rattle.std.specs.Prelude.{◌≡◌, ◌≤◌, ℕ, List, Some, All, length};
ghost use Rattle.std.specs.List.{flat_map};
ghost use Rattle.tpm_core.specs.declared.algorithm.Banks.{Banks};
ghost use Rattle.tpm_core.specs.Capabilities.{CapabilityEntry, capability_list, pages};

/// Pages that are asked for one after the other, each with a count of at least one, are the whole list, and there are
/// at most as many as it has entries.
pub fn pages_are_the_list()
    ensures whole { (banks : Banks) (capability : ℕ) (entries : List CapabilityEntry) (counts : List ℕ)
        → capability_list banks capability ≡ Some entries → All (λ count. 1 ≤ count) counts → length entries ≤ length counts
        → flat_map (λ page. page) (pages 0 counts entries) ≡ entries }
    ensures few { (banks : Banks) (capability : ℕ) (entries : List CapabilityEntry) (counts : List ℕ)
        → capability_list banks capability ≡ Some entries → All (λ count. 1 ≤ count) counts
        → length (pages 0 counts entries) ≤ length entries }
{}
