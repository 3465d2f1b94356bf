//! The law of shards: profiles of disjoint lists of a program's lines are joined into the profile
//! of all their lines.
#![tactic(auto)]

ghost use Rattle.profile_shards.specs.Shards.{ShardsJoin};

/// The join of the profiles of lists of lines is the profile of all their lines, exactly if
/// no line is in two lists; else the fault names the first line that is in two lists, and the
/// second list that has it.
pub fn shards_join()
    ensures { ShardsJoin }
{}
