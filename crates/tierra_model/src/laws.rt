//! Laws of the definitions: functions that do nothing, each with its law as its contract.

ghost use Rattle.tierra_model.specs.Findings.{FindingStands, LawOfFindings};
ghost use Rattle.tierra_model.specs.Difference.{DifferenceTells, LeastPlace};
ghost use Rattle.tierra_model.specs.Laws.{InstructionIsPlain, QuantumIsSound, SerialIsSound, BankIsGroups, BankInRange, YardsAreSafe, AheadIsSound, DisturbanceCountsLiving};
ghost use Rattle.tierra_model.specs.Nearest.{NearestIsFound, TemplateIsLongest};
ghost use Rattle.tierra_model.specs.Room.{FirstFitIsLeast};
ghost use Rattle.tierra_model.specs.Log.{SceneAlone};

/// Does nothing: its contract is the law that a finding which stands and agrees is the quantum.
pub fn law_of_findings()
    ensures { LawOfFindings }
{}

/// Does nothing: its contract is the law that what the quantum of a sound world finds in its scene stands.
pub fn finding_stands()
    ensures { FindingStands }
{}

/// Does nothing: its contract is the law that sound worlds stay sound.
pub fn quantum_is_sound()
    ensures { QuantumIsSound }
{}

/// Does nothing: its contract is the law that every world of a serial run is sound.
pub fn serial_is_sound()
    ensures { SerialIsSound }
{}

/// Does nothing: its contract is the law that a sound world turned ahead, to a living creature and a quantum to come,
/// is sound.
pub fn ahead_is_sound()
    ensures { AheadIsSound }
{}

/// Does nothing: its contract is the law that the disturbance of a sound world counts the living.
pub fn disturbance_counts_living()
    ensures { DisturbanceCountsLiving }
{}

/// Does nothing: its contract is the law that there is no first difference if and only if the reads agree.
pub fn difference_tells()
    ensures { DifferenceTells }
{}

/// Does nothing: its contract is the law that a list's difference is at the least place.
pub fn least_place()
    ensures { LeastPlace }
{}

/// Does nothing: its contract is the law that the groups of a run's world are its setup's genebank.
pub fn bank_is_groups()
    ensures { BankIsGroups }
{}

/// Does nothing: its contract is the law that an instruction in a world is what follows from the soup as it is.
pub fn instruction_is_plain()
    ensures { InstructionIsPlain }
{}

/// Does nothing: its contract is the law that a template is the longest run of nops.
pub fn template_is_longest()
    ensures { TemplateIsLongest }
{}

/// Does nothing: its contract is the law that a search finds the matching candidate of the least distance.
pub fn nearest_is_found()
    ensures { NearestIsFound }
{}

/// Does nothing: its contract is the law that a quantum reads and does the same in its scene.
pub fn scene_alone()
    ensures { SceneAlone }
{}

/// Does nothing: its contract is the law that each group of a genebank is in the ranges.
pub fn bank_in_range()
    ensures { BankInRange }
{}

/// Does nothing: its contract is the law that no creature has the number of a stand-in, and that a queue move of a
/// creature that is not in a yard changes nothing there.
pub fn yards_are_safe()
    ensures { YardsAreSafe }
{}

/// Does nothing: its contract is the law that a first fit is at the least address where the cells are free.
pub fn first_fit_is_least()
    ensures { FirstFitIsLeast }
{}
