// The lines on the field.
use super::line::Line;
use std::io::{Result, Write};

// a times 0 to 255.
fn products(a: u8) -> [u8; 256] {
    let mut row = [0u8; 256];
    for (b, entry) in row.iter_mut().enumerate() {
        *entry = gf256::product(a, b as u8);
    }
    row
}

// The inverses of 1 to 255.
fn inverses() -> [u8; 255] {
    let mut row = [0u8; 255];
    for (i, entry) in row.iter_mut().enumerate() {
        *entry = gf256::inverse(i as u8 + 1);
    }
    row
}

fn print_products<W: Write>(to: &mut W) -> Result<()> {
    for a in 0..256u32 {
        let row = products(a as u8);
        Line::new().bytes(&row).write(to)?;
    }
    Ok(())
}

pub fn print<W: Write>(to: &mut W) -> Result<()> {
    let powers = gf256::powers::table();
    Line::new().bytes(&powers).write(to)?;
    let logarithms = gf256::logarithms::table();
    Line::new().bytes(&logarithms).write(to)?;
    print_products(to)?;
    let inverses = inverses();
    Line::new().bytes(&inverses).write(to)
}
