// The numbers given back: one name for each row of document 01's table, in the table's order.
#![tactic(auto)]

ghost use Rattle.std.specs.Prelude.{◌≡◌};
ghost use Rattle.refusal.specs.Number.{number_of};

#[derive(Clone, Copy, Debug, PartialEq, Eq)]
pub enum Refusal {
    // Too few bytes for a frame, 10 or less.
    TooShort = 1,
    // Too many bytes for a frame, 32 or more.
    TooLong = 2,
    // An EXT bit is set.
    Extended = 3,
    // LEN is not the number of bytes.
    WrongLength = 4,
    // The checksum is not the sum of the bytes before it.
    WrongChecksum = 5,
    // MSG FFh, which no frame has.
    ReservedMessage = 6,
    // The lent bytes and the lent silences are not equally many.
    UnequalRuns = 7,
    // Reading is to begin past the end of the lent runs.
    PlacePastEnd = 8,
    // The line reader's state counts over 32 bytes, or has more than zeros beyond its count.
    BrokenReader = 9,
    // An address to be written needs more than three bytes.
    AddressTooLarge = 10,
    // A node type to be written needs more than four bits.
    TypeTooLarge = 11,
    // More than 20 bytes of DATA are to be written.
    TooMuchData = 12,
    // MSG FFh is to be written.
    ReservedToWrite = 13,
    // From the given place on the buffer has no room for the frame.
    NoRoom = 14,
    // A field of a typed message is out of its range.
    FieldOutOfRange = 15,
    // A typed message has another count of DATA.
    WrongDataCount = 16,
    // MSG is none of the list of typed messages.
    UnlistedMessage = 18,
    // The lent register is not sound.
    BrokenRegister = 19,
    // There are lines 0 to 3 only.
    NoSuchLine = 20,
    // The sender is no motor: outside 000001h to FFFEFFh, or a group.
    NoMotor = 21,
    // The register takes messages 60h and 0Dh only.
    NotForRegister = 22,
    // A 0Dh whose reading is too short, or whose percent or IP is out of range.
    BadReading = 23,
    // All 256 places are held, and the motor is new.
    RegisterFull = 24,
    // The motor to be struck out is not held.
    NotHeld = 25,
    // The pulse lies beyond the travel.
    BeyondTravel = 30,
    // The cause is none of the three that block.
    NotBlocking = 31,
    // NodeID, type or travel out of range at set-up.
    BadSettings = 32,
    // The node's state is not sound.
    BrokenNode = 33,
    // Under 3 bytes, or not stored form 1.
    NotFormOne = 40,
    // The stored form counts over 256 motors.
    TooManyMotors = 41,
    // The stored form is not as long as its count says.
    WrongFormLength = 42,
    // The stored form's contents are malformed.
    BadContents = 43,
    // A body of the stored form is malformed.
    BadBody = 44,
    // The buffer has no room for the stored form.
    NoRoomForForm = 45,
}

impl Refusal {
    // The number of the row.
    pub fn number(self) -> u8
        ensures { result ≡ number_of self }
    {
        self as u8
    }
}
