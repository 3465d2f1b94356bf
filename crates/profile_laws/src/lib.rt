//! Laws of what the programs of this repository print of profiles, one after the other.
#![tactic(auto)]

ghost use Rattle.std.specs.Prelude.{◌≡◌};
ghost use Rattle.experiment_plan.specs.declared.experiment.TheConstants.{MAX_PAIRS};
ghost use Rattle.profile_reader.specs.declared.TheConstants.{MAX_PROFILE};
ghost use Rattle.run_engine.specs.declared.choice.TheConstants.{MAX_RUN_OUTPUT};
ghost use Rattle.run_inputs.specs.declared.inputs.TheConstants.{MAX_INPUT};
ghost use Rattle.profile_laws.specs.Headline.{PlotsAreShortened};
ghost use Rattle.profile_laws.specs.Shards.{PrintsJoin};

/// What `coz plot` prints of a profile that `coz profile` printed: each value is computed of the net
/// times and the visits of shortened runs, in which the line really costs less.
pub fn plots_are_shortened()
    ensures { PlotsAreShortened }
{}

/// What `coz-join` prints of profiles that `coz profile` printed of disjoint lists of lines: it is what
/// `coz profile` prints of all their lines.
pub fn shards_are_joined()
    ensures { PrintsJoin }
{}

/// What the definitions of commands cite by name: the most bytes of a profile's text, of a run's
/// output and of an input, and the most pairs of a line and a speedup.
pub fn sizes()
    ensures profile { MAX_PROFILE ≡ 268435456 }
    ensures output { MAX_RUN_OUTPUT ≡ 4194304 }
    ensures input { MAX_INPUT ≡ 16777216 }
    ensures pairs { MAX_PAIRS ≡ 100000 }
{}
