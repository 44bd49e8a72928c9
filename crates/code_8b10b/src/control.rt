//! The octets of the control characters of an 8b/10b lane (JESD204B.01 clause 5.3.3).

/// /R/, K28.0: a multiframe of the alignment sequence begins.
pub const K28_0: u8 = 0x1C;

/// /A/, K28.3: a multiframe ends.
pub const K28_3: u8 = 0x7C;

/// /Q/, K28.4: the configuration octets follow.
pub const K28_4: u8 = 0x9C;

/// /K/, K28.5: the comma, sent while the receiver looks for characters.
pub const K28_5: u8 = 0xBC;

/// /F/, K28.7: a frame ends that ends no multiframe.
pub const K28_7: u8 = 0xFC;
