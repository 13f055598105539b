// What a job's bytes are refused for.
ghost use Rattle.std.specs.Prelude.{◌≡◌};
ghost use Rattle.job_commands.specs.Refusal.{number_of};

// Document 01's refusals of a job that cannot be read, by their numbers. Their step is 0.
#[derive(Clone, Copy, PartialEq, Eq, Debug)]
pub enum JobRefusal {
    // n is 0 or above 128.
    Limits = 1,
    // A command byte is unknown or stands where it may not, or R names another row than the next.
    Misplaced = 15,
    // The bytes end inside or before a command.
    CutShort = 16,
    // Bytes follow Z.
    BytesBehind = 17,
    // More than 16,384 bytes.
    TooLong = 18,
}

impl JobRefusal {
    // The number that is printed.
    pub fn number(self) -> usize
        ensures { result ≡ number_of self }
    {
        self as usize
    }
}
