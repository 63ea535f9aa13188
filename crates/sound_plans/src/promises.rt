//! Each function stands for a theorem, which is its contract.
ghost use Rattle.sound_plans.specs.Sound.{SoundPlansAnswer, SoundPlansMeetFacts, SoundPlansPrint, SoundPortsTake};
ghost use Rattle.sound_plans.specs.States.{SoundPlansHold};

/// Each of its nodes meets its facts, in however many subtasks it runs, and each port takes what its edge carries.
pub fn sound_plans_meet_facts()
    ensures facts { SoundPlansMeetFacts }
    ensures takes { SoundPortsTake }
{}

/// Each of its nodes answers as the node's tree does, over whatever rows the tables have.
pub fn sound_plans_answer()
    ensures { SoundPlansAnswer }
{}

/// In every run over a sound plan each prefix of what was printed is a valid changelog of the sink's mode, and at every quiet moment it
/// folds to the sink's batch answer over the rows that the changes taken leave of each table.
pub fn sound_plans_print()
    ensures { SoundPlansPrint }
{}

/// In every state of every run over a sound plan, in however many subtasks it runs: each prefix of what a subtask sent stands for some rows
/// and has its edge's kinds and columns, keys hold, each change that is consumed may be, and at a quiet moment each node stands for its
/// batch answer; and changes that agree on the key of an edge of last rows go through one channel.
pub fn sound_plans_hold()
    ensures { SoundPlansHold }
{}
