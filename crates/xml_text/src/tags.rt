// The characters of tags.

// What tags begin with.
pub const OPEN: u8 = b'<';

// What stands behind that in a closing tag, in the tags of a production and in those of a token.
pub const SLASH: u8 = b'/';

pub const NODE: u8 = b'x';

pub const TOKEN: u8 = b't';

// What stands between a kind and a name.
pub const POINT: u8 = b'.';

// What tags end with.
pub const END: u8 = b'>';

// The first of the digits.
pub const ZERO: u8 = b'0';
