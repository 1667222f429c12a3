// How a run ended.
ghost use Rattle.std.specs.Prelude.{◌≡◌};
ghost use Rattle.re_frame.specs.Outcomes.{code_of, status_of};

/// How a run ended.
#[derive(Clone, Copy, Debug, PartialEq, Eq)]
pub enum Status {
    Done,
    No,
    BadWords,
    BadInput,
    Limit,
    ReadFault,
    WriteFault,
    NoMemory,
}

impl Status {
    /// The exit code, from 0 to 7 in the order above.
    pub fn code(&self) -> u8
        ensures { result ≡ code_of self.now }
    {
        match self {
            Status::Done => 0,
            Status::No => 1,
            Status::BadWords => 2,
            Status::BadInput => 3,
            Status::Limit => 4,
            Status::ReadFault => 5,
            Status::WriteFault => 6,
            Status::NoMemory => 7,
        }
    }
}

/// The answers that the words and the bytes alone decide.
#[derive(Clone, Copy, Debug, PartialEq, Eq)]
pub enum Answer {
    Done,
    No,
    BadWords,
    BadInput,
    Limit,
}

impl Answer {
    /// The status of a run whose text was put.
    pub fn status(self) -> Status
        ensures { result ≡ status_of self }
    {
        match self {
            Answer::Done => Status::Done,
            Answer::No => Status::No,
            Answer::BadWords => Status::BadWords,
            Answer::BadInput => Status::BadInput,
            Answer::Limit => Status::Limit,
        }
    }
}
