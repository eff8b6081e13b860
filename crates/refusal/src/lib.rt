// Why something is refused, by the names and numbers of document 01, "Refusal numbers".
//
// Every entry of every room answers with these names; `number_of` alone turns them into numbers, so that no room has
// numbers of its own. "Need more" is an answer and no refusal.
#![tactic(auto)]

ghost use Rattle.std.specs.Prelude.{◌≡◌};
ghost use Rattle.refusal.specs.Number.{number};

#[derive(Clone, Copy, Debug, PartialEq, Eq)]
pub enum Refusal {
    // opening with a limit of 0 or above 1,073,741,824
    BadLimit = 1,
    // a packet, a chunk or a frame header above the limit
    TooLarge = 2,
    // a complete chunk or frame has the wrong number
    OutOfSync = 3,
    // frame length 0, plain length not 0
    BadFrameHeader = 4,
    // both frame lengths not 0: a packed payload
    Packed = 5,
    // a lent buffer or list is too short
    NoRoom = 6,
    // the state is closed
    Closed = 7,
    // a value or record ends too early
    Short = 8,
    // a length starts with 0xFB or 0xFF
    BadLead = 9,
    // a column type that the document does not list
    BadType = 10,
    // a duration that no i64 holds
    OutOfRange = 11,
    // a row's first byte is not 0
    BadRow = 12,
    // 0 or more than 4,096 columns, or lists of unequal length
    BadColumns = 13,
    // a packet that is none of OK, ERR and EOF
    BadPacket = 14,
    // bytes that are no quoted literal
    BadLiteral = 15,
    // a row that fits into no statement
    RowTooLong = 16,
    // more than 8,192 rows
    TooManyRows = 17,
}

// A refusal's number in the table.
pub fn number_of(r: Refusal) -> u8
    ensures { result ≡ number r }
{
    r as u8
}
