//! What holds of plans.

ghost use Rattle.std.specs.Prelude.{◌≡◌, ◌≢◌, ◌⊎◌, ◌+◌, ℕ, List, Option, Some, length};
ghost use Rattle.dm_token.specs.declared.expansion.Definition.{Definition};
ghost use Rattle.dm_token.specs.declared.place.Place.{Place};
ghost use Rattle.dm_token.specs.declared.unit.Unit.{Unit as Source};
ghost use Rattle.dm_io.specs.Files.{Files};
ghost use Rattle.dm_search.specs.Loaded.{held_at};
ghost use Rattle.dm_edit.specs.declared.change.Change.{Change};
ghost use Rattle.dm_edit.specs.declared.plan.Entry.{Entry};
ghost use Rattle.dm_edit.specs.declared.plan.Fate.TheVariants.{Kept, Rewritten};
ghost use Rattle.dm_edit.specs.Edits.{IsEdited};
ghost use Rattle.dm_judge.specs.declared.proposal.Proposal.TheVariants.{Broken};
ghost use Rattle.dm_readings.specs.Again.{reader_count};
ghost use Rattle.dm_subjects.specs.declared.subject.Subject.{Subject};
ghost use Rattle.dm_subjects.specs.Subjects.{bytes_at};
ghost use Rattle.dm_planning.specs.Judging.{Project, Edits, JudgesAll, JudgesBy, file_of, reread_rule};

/// Each definition is judged once.
pub fn each_definition_has_one_outcome()
    ensures { (told : Option Files) (units : List Source) (first last : Project) (subjects : List Subject) (entries : List Entry) →
        JudgesAll told units first subjects entries last → length entries ≡ length subjects }
{}

/// A definition that breaks one of the rules 1 to 14 changes nothing, and no unit is read for it.
pub fn a_broken_rule_costs_no_reading()
    ensures { (told : Option Files) (units : List Source) (before after : Project) (definition : Definition) (rule : ℕ) (place : Place) (entry : Entry) →
        JudgesBy told units before definition (Broken rule place) entry after → after ≡ before }
{}

/// For another definition each unit that reads its file is read once, or none where the edited bytes are refused by themselves.
pub fn edits_cost_readings()
    ensures { (told : Option Files) (units : List Source) (before after : Project) (change : Change) (entry : Entry) →
        Edits told units before change entry after →
        (after ≡ before) ⊎ (after.count ≡ before.count + reader_count (file_of change) before.readings) }
{}

/// The definition's file holds the edited bytes then, or the definition is kept by rule 15 and the file holds the old ones.
pub fn edits_stand_or_are_taken_back()
    ensures { (told : Option Files) (units : List Source) (before after : Project) (change : Change) (entry : Entry) →
        Edits told units before change entry after →
        ((entry.outcome ≡ Rewritten change.kind) × IsEdited (bytes_at before.loaded (file_of change)) change (bytes_at after.loaded (file_of change)))
        ⊎ ((entry.outcome ≡ Kept reread_rule change.definition.place) × (bytes_at after.loaded (file_of change) ≡ bytes_at before.loaded (file_of change))) }
{}

/// What is held of all other files stays.
pub fn other_files_stay()
    ensures { (told : Option Files) (units : List Source) (before after : Project) (change : Change) (entry : Entry) (file : ℕ) (bytes : List ℕ) →
        Edits told units before change entry after → file ≢ file_of change →
        held_at before.loaded file ≡ Some bytes → held_at after.loaded file ≡ Some bytes }
{}
