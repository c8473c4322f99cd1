// Why a text is not a plan.
ghost use Rattle.std.specs.Prelude.{◌≡◌};
ghost use Rattle.records.specs.Faults.{number_of, line_of, layer_of, cause_number};

// The parts of the work that can refuse; a fault names its layer.
#[derive(Clone, Copy)]
pub enum Layer {
    Reading,
    Clearing,
    Opening,
    Running,
}

// What is wrong with a line, by the number of the fault.
#[derive(Clone, Copy)]
pub enum Cause {
    // it has no byte 10, is too long, or has a byte that no line has
    Bytes = 3,
    // its first field is not one known letter, or it stands outside its section
    Letter = 4,
    // it has the wrong number of fields
    Count = 5,
    // a field is not of its form or range, or the header word is another order's
    Form = 6,
    // its name was declared before
    Declared = 7,
    // it names what is unknown or of another kind, or starts a task that is not above its own
    Unknown = 8,
    // it is the second for its pair, or for its channel in a task
    Twice = 9,
    // it is one object, task, line or operation too many
    Full = 10,
}

// A fault of reading.
#[derive(Clone, Copy)]
pub enum ReadFault {
    TextTooLong,
    SheetTooShort,
    // the sheet is not what reading the text gives
    SheetDiffers,
    BadLine { cause: Cause, line: usize },
    NoTask,
    // a task that no F line names, by its T line
    NeverStarted { line: usize },
    // the last task has Q lines; its T line
    MainHasCounts { line: usize },
    TooManyThreads,
    TooManySends,
}

impl Cause {
    // The number of the fault, 3 to 10.
    pub fn number(self) -> u8
        ensures { result ≡ cause_number self }
    {
        self as u8
    }
}

impl ReadFault {
    // The number of the fault, 1 to 15. Two cases share the 2, and a bad line has the number of its cause, so it is no
    // discriminant.
    pub fn number(self) -> u8
        ensures { result ≡ number_of self }
    {
        match self {
            ReadFault::TextTooLong => 1,
            ReadFault::SheetTooShort | ReadFault::SheetDiffers => 2,
            ReadFault::BadLine { cause, .. } => cause.number(),
            ReadFault::NoTask => 11,
            ReadFault::NeverStarted { .. } => 12,
            ReadFault::MainHasCounts { .. } => 13,
            ReadFault::TooManyThreads => 14,
            ReadFault::TooManySends => 15,
        }
    }

    // The line that the fault names, from 1; 0 where it names none, as it is written. No Option: lines count from 1.
    pub fn line(self) -> usize
        ensures { result ≡ line_of self }
    {
        match self {
            ReadFault::BadLine { line, .. }
            | ReadFault::NeverStarted { line }
            | ReadFault::MainHasCounts { line } => line,
            _ => 0,
        }
    }

    // The layer that refuses: each fault of this enum is of the reader.
    pub fn layer(self) -> Layer
        ensures { result ≡ layer_of self }
    {
        Layer::Reading
    }
}
