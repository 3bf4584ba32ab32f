// The checksum of a run of bytes. Before the first byte it is 0.

fn after(h: u32, byte: u8) -> u32 {
    ((h as u64 * 31 + byte as u64 + 1) % 4294967296) as u32
}

pub fn after_all(mut h: u32, bytes: &[u8]) -> u32 {
    for byte in bytes {
        h = after(h, *byte);
    }
    h
}
