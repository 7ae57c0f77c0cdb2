//! The codes of the audit's answers. The first line of each comment is the code's text.
//!
//! Codes 1 to 5 speak of the framing of a capture, 10 to 17 of one message, 20 to 34 of the session,
//! 40 to 50 of node ids and file handles, 60 and 61 of the two texts, and 70 to 86 of the order.

ghost use Rattle.std.specs.Prelude.{◌≡◌, option_map};
ghost use Rattle.fa_capture.specs.Codes.{text_of};

/// no FUSECAP1 or FUSECAP2 at the start
pub const NO_MAGIC: u16 = 1;
/// record cut off
pub const CUT_OFF: u16 = 2;
/// direction byte
pub const DIRECTION: u16 = 3;
/// message too long
pub const MESSAGE_TOO_LONG: u16 = 4;
/// too many messages or bytes
pub const CAPTURE_TOO_LARGE: u16 = 5;

/// header too short
pub const HEADER_TOO_SHORT: u16 = 10;
/// length field differs from the record
pub const LENGTH_FIELD: u16 = 11;
/// operation out of the set
pub const OPERATION: u16 = 12;
/// request body
pub const REQUEST_BODY: u16 = 13;
/// limit of this profile
pub const PROFILE_LIMIT: u16 = 14;
/// error value out of range
pub const ERROR_VALUE: u16 = 15;
/// reply body
pub const REPLY_BODY: u16 = 16;
/// notification
pub const NOTIFICATION: u16 = 17;

/// first message is not INIT
pub const FIRST_NOT_INIT: u16 = 20;
/// second INIT
pub const SECOND_INIT: u16 = 21;
/// request before INIT was answered
pub const BEFORE_INIT_ANSWERED: u16 = 22;
/// INIT refused
pub const INIT_REFUSED: u16 = 23;
/// version
pub const VERSION: u16 = 24;
/// negotiated flags
pub const NEGOTIATED_FLAGS: u16 = 25;

/// unique in use
pub const UNIQUE_IN_USE: u16 = 30;
/// no request waits for this reply
pub const NO_REQUEST_WAITS: u16 = 31;
/// success of an operation left out
pub const LEFT_OUT_SUCCEEDED: u16 = 32;
/// open without a file handle
pub const OPEN_WITHOUT_HANDLE: u16 = 33;
/// request with unique 0
pub const UNIQUE_ZERO: u16 = 34;

/// forgotten node
pub const FORGOTTEN_NODE: u16 = 40;
/// forgotten too often
pub const FORGOTTEN_TOO_OFTEN: u16 = 41;
/// node id not allowed
pub const NODE_ID_NOT_ALLOWED: u16 = 42;
/// closed file handle
pub const CLOSED_HANDLE: u16 = 50;

/// not an order text
pub const NOT_AN_ORDER_TEXT: u16 = 60;
/// not a tree text
pub const NOT_A_TREE_TEXT: u16 = 61;

/// no tree request
pub const NO_TREE_REQUEST: u16 = 70;
/// placed twice
pub const PLACED_TWICE: u16 = 71;
/// an earlier answered request is not placed yet
pub const EARLIER_NOT_PLACED: u16 = 72;
/// answered request left out
pub const ANSWERED_LEFT_OUT: u16 = 73;
/// choice not allowed
pub const CHOICE_NOT_ALLOWED: u16 = 74;

/// node or file handle not known here
pub const UNKNOWN_HERE: u16 = 80;
/// success not allowed
pub const SUCCESS_NOT_ALLOWED: u16 = 81;
/// error without a cause
pub const ERROR_WITHOUT_CAUSE: u16 = 82;
/// attributes
pub const ATTRIBUTES: u16 = 83;
/// node id of another file
pub const NODE_ID_OF_ANOTHER: u16 = 84;
/// bytes read
pub const BYTES_READ: u16 = 85;
/// listing
pub const LISTING: u16 = 86;

/// The text of a code, if it is one.
///
/// Takes no memory, in constant time.
pub fn text(code: u16) -> Option<&'static str>
    ensures { option_map (λ text. text.now) result ≡ text_of code }
{
    let text = match code {
        NO_MAGIC => "no FUSECAP1 or FUSECAP2 at the start",
        CUT_OFF => "record cut off",
        DIRECTION => "direction byte",
        MESSAGE_TOO_LONG => "message too long",
        CAPTURE_TOO_LARGE => "too many messages or bytes",
        HEADER_TOO_SHORT => "header too short",
        LENGTH_FIELD => "length field differs from the record",
        OPERATION => "operation out of the set",
        REQUEST_BODY => "request body",
        PROFILE_LIMIT => "limit of this profile",
        ERROR_VALUE => "error value out of range",
        REPLY_BODY => "reply body",
        NOTIFICATION => "notification",
        FIRST_NOT_INIT => "first message is not INIT",
        SECOND_INIT => "second INIT",
        BEFORE_INIT_ANSWERED => "request before INIT was answered",
        INIT_REFUSED => "INIT refused",
        VERSION => "version",
        NEGOTIATED_FLAGS => "negotiated flags",
        UNIQUE_IN_USE => "unique in use",
        NO_REQUEST_WAITS => "no request waits for this reply",
        LEFT_OUT_SUCCEEDED => "success of an operation left out",
        OPEN_WITHOUT_HANDLE => "open without a file handle",
        UNIQUE_ZERO => "request with unique 0",
        FORGOTTEN_NODE => "forgotten node",
        FORGOTTEN_TOO_OFTEN => "forgotten too often",
        NODE_ID_NOT_ALLOWED => "node id not allowed",
        CLOSED_HANDLE => "closed file handle",
        NOT_AN_ORDER_TEXT => "not an order text",
        NOT_A_TREE_TEXT => "not a tree text",
        NO_TREE_REQUEST => "no tree request",
        PLACED_TWICE => "placed twice",
        EARLIER_NOT_PLACED => "an earlier answered request is not placed yet",
        ANSWERED_LEFT_OUT => "answered request left out",
        CHOICE_NOT_ALLOWED => "choice not allowed",
        UNKNOWN_HERE => "node or file handle not known here",
        SUCCESS_NOT_ALLOWED => "success not allowed",
        ERROR_WITHOUT_CAUSE => "error without a cause",
        ATTRIBUTES => "attributes",
        NODE_ID_OF_ANOTHER => "node id of another file",
        BYTES_READ => "bytes read",
        LISTING => "listing",
        _ => return None,
    };
    Some(text)
}
