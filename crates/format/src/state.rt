// A stripe: its records with the blocks, its spare and its differences.
ghost use Rattle.std.specs.Prelude.{◌≡◌, ◌*◌, ◌≤◌, length};
ghost use Rattle.format.specs.Tables.{Tables};
ghost use Rattle.records.specs.Sizes.{client_limit, node_limit};

use super::clients::put_client;
use super::nodes::put_node;
use records::Sizes;
use std::io::{Result, Write};
use step::Clients;
use streams::output::put_bytes;
use stripe::Nodes;

// The nodes one space apart.
fn put_nodes<W: Write>(out: &mut W, z: Sizes, nodes: Nodes, blocks: &[u8]) -> Result<()>
    requires { (z.n ≤ node_limit) × (length blocks.now ≡ z.n * z.b) }
{
    for (i, node) in nodes.items[..z.n].iter().enumerate() {
        if i > 0 {
            write!(out, " ")?;
        }
        let start = i * z.b;
        put_node(out, i + 1, *node, &blocks[start..start + z.b])?;
    }
    Ok(())
}

// The clients one space apart.
fn put_clients<W: Write>(out: &mut W, m: usize, clients: Clients) -> Result<()>
    requires { m ≤ client_limit }
{
    for (i, client) in clients.items[..m].iter().enumerate() {
        if i > 0 {
            write!(out, " ")?;
        }
        put_client(out, i + 1, *client)?;
    }
    Ok(())
}

// `NODES # CLIENTS # SPARE # DIFFERENCES`, and the line's end.
pub fn put_state<W: Write>(
    out: &mut W,
    z: Sizes,
    nodes: Nodes,
    clients: Clients,
    blocks: &[u8],
    spare: &[u8],
    differences: &[u8],
) -> Result<()>
    requires { Tables z blocks.now }
{
    put_nodes(out, z, nodes, blocks)?;
    write!(out, " # ")?;
    put_clients(out, z.m, clients)?;
    write!(out, " # ")?;
    put_bytes(out, spare)?;
    write!(out, " # ")?;
    put_bytes(out, differences)?;
    write!(out, "\n")
}
