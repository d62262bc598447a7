//! How a run ends.
ghost use Rattle.std.specs.Prelude.{◌≡◌};
ghost use Rattle.acas_command.specs.Answers.{ended, report_ended};
ghost use Rattle.acas_command.specs.Codes.{code_of};

use acas_doc::InputFault;
use acas_model::ModelFault;
use acas_table_text::TableRefusal;
use std::alloc::AllocError;

/// A file that a command reads, by what the command reads it as.
#[derive(Clone, Copy)]
pub enum FileRole {
    Model,
    Table,
    Boxes,
    Encounter,
}

/// Why a run ended.
#[derive(Drop)]
pub enum Cause {
    /// The whole output is out, and reports nothing.
    Done,
    /// The whole output is out, and reports at least one cell or box.
    Reported,
    /// The words are no form of a command.
    Words,
    /// A file that the command reads is not there.
    Absent(FileRole),
    /// The model's file is no model: the first rule that it fails.
    Model(ModelFault),
    /// The table's file is no accepted table of the model: the first field or entry that is not as it is to be.
    Table(TableRefusal),
    /// The file of boxes or of an encounter is none for this model: the first rule that it fails.
    Input(InputFault),
    /// A call on the folder failed.
    Folder,
    /// A call on the output failed.
    Output,
    /// A text file has more than 1,000,000 bytes.
    TooLong(FileRole),
    /// Memory was refused.
    Memory,
}

/// The end of a run: its cause, and the exit code that goes with it.
#[derive(Drop)]
pub struct Status {
    pub code: u8,
    pub cause: Cause,
}

impl From<AllocError> for Cause {
    ghost use Rattle.std.specs.Prelude.{◌≡◌};
    ghost use Rattle.acas_command.specs.declared.status.Cause.TheVariants.{Memory};

    ghost from_gives = { λ _ e. e ≡ Memory };

    fn from(_: AllocError) -> Cause {
        Cause::Memory
    }
}

impl From<InputFault> for Cause {
    ghost use Rattle.std.specs.Prelude.{◌≡◌};
    ghost use Rattle.acas_command.specs.Calls.{input_cause};

    ghost from_gives = { λ fault e. e ≡ input_cause fault };

    fn from(fault: InputFault) -> Cause {
        match fault {
            InputFault::Memory => Cause::Memory,
            fault => Cause::Input(fault),
        }
    }
}

/// The cause that a command ended with.
pub fn cause_of(answer: Result<(), Cause>) -> Cause
    ensures { result ≡ ended answer }
{
    match answer {
        Ok(()) => Cause::Done,
        Err(cause) => cause,
    }
}

/// The cause that a command ended with which answers how many cells or boxes are reported.
pub fn cause_of_report(answer: Result<u64, Cause>) -> Cause
    ensures { result ≡ report_ended answer }
{
    match answer {
        Ok(0) => Cause::Done,
        Ok(_) => Cause::Reported,
        Err(cause) => cause,
    }
}

impl Cause {
    /// The exit code.
    pub fn code(&self) -> u8
        ensures { result ≡ code_of self.now }
    {
        match self {
            Cause::Done => 0,
            Cause::Reported => 1,
            Cause::Words => 2,
            Cause::Absent(_) => 3,
            Cause::Model(_) => 4,
            Cause::Table(_) => 5,
            Cause::Input(_) => 6,
            Cause::Folder => 7,
            Cause::Output => 8,
            Cause::TooLong(_) => 9,
            Cause::Memory => 12,
        }
    }
}
