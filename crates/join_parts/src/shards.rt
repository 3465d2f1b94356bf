//! The law of shards over files.
ghost use Rattle.join_parts.specs.Shards.{ShardsVerdict};

/// If the files hold the profiles of lists of a program's lines, the verdict is that of the profile
/// of all their lines, exactly if no line is in two lists. Else it names the first line that is in
/// two lists, and the file of the second list that has it.
pub fn shards_verdict()
    ensures { ShardsVerdict }
{}
