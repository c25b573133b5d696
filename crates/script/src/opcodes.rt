// One byte for each operation, by its name in the Bitcoin script numbering and the Elements opcode document, in the order of document 01's kinds 4 to 35. 2DUP is `DUP2`: a name
// begins with a letter.
pub const PUSHCURRENTINPUTINDEX: u8 = 0xcd;

pub const ADD: u8 = 0x93;

pub const SUB: u8 = 0x94;

pub const SCRIPTNUMTOLE64: u8 = 0xe0;

pub const LE64TOSCRIPTNUM: u8 = 0xe1;

pub const MUL64: u8 = 0xd9;

pub const DIV64: u8 = 0xda;

pub const ADD64: u8 = 0xd7;

pub const SUB64: u8 = 0xd8;

pub const NEG64: u8 = 0xdb;

pub const EQUAL: u8 = 0x87;

pub const VERIFY: u8 = 0x69;

pub const NIP: u8 = 0x77;

pub const DROP: u8 = 0x75;

pub const AND: u8 = 0x84;

pub const OR: u8 = 0x85;

pub const XOR: u8 = 0x86;

pub const INVERT: u8 = 0x83;

pub const INSPECTINPUTVALUE: u8 = 0xc9;

pub const INSPECTOUTPUTVALUE: u8 = 0xcf;

pub const INSPECTINPUTISSUANCE: u8 = 0xcc;

pub const DUP2: u8 = 0x6e;

pub const TOALTSTACK: u8 = 0x6b;

pub const FROMALTSTACK: u8 = 0x6c;

pub const GREATERTHANOREQUAL64: u8 = 0xdf;

pub const GREATERTHAN64: u8 = 0xde;

pub const LESSTHANOREQUAL64: u8 = 0xdd;

pub const LESSTHAN64: u8 = 0xdc;

pub const CAT: u8 = 0x7e;

pub const SHA256: u8 = 0xa8;

pub const CHECKSIGFROMSTACKVERIFY: u8 = 0xc2;

pub const SWAP: u8 = 0x7c;

// What stands for Equal and Verify, and the numbers 0 and 1.
pub const EQUALVERIFY: u8 = 0x88;

pub const PUSHBYTES_0: u8 = 0x00;

pub const PUSHNUM_1: u8 = 0x51;
