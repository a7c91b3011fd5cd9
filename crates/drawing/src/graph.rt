// The objects of a state table as a directed graph: a line for each object, then one for each field that holds an object. Nodes, edges and fields are a
// loop of one call each (kept apart, as in listing).
ghost use Rattle.std.specs.Prelude.{◌≤◌, ◌<◌, length};
ghost use Rattle.rules.specs.Templates.{print};
ghost use Rattle.rules.specs.State.{object_at};
ghost use Rattle.rules.specs.Listing.{numbered};
ghost use Rattle.rules.specs.Drawing.{look, node_t, node_line, edge_line, edge_lines, drawing};
ghost use Rattle.buffer.specs.Outputs.{HasRoom, Wrote};
ghost use Rattle.table.specs.StateTable.{Any};
ghost use Rattle.listing.specs.StateWriting.{Writes};

use buffer::Output;
use rules::{Cap, Value};

// ---- Nodes

// How a node looks, which tells its capability.
fn put_look(out: &mut Output, cap: Cap)
    requires { HasRoom 34 out.old }
    ensures { Wrote 34 out.old out.new (look cap) }
{
    match cap {
        Cap::Imm => out.put_text(b"shape=box, fillcolor=lightblue"),
        Cap::Iso => out.put_text(b"shape=ellipse, fillcolor=palegreen"),
        Cap::Local => out.put_text(b"shape=house, fillcolor=khaki"),
        Cap::Unsafe => out.put_text(b"shape=octagon, fillcolor=salmon"),
    }
}

// The front of a node's line: its number, and its label.
fn put_label(out: &mut Output, n: usize, cap: Cap)
    requires { HasRoom 31 out.old }
    ensures { Wrote 31 out.old out.new (print node_t (n, (n, (cap, tt)))) }
{
    out.put_text(b"  ");
    out.put_decimal(n);
    out.put_text(b" [label=\"");
    out.put_decimal(n);
    out.put_cap(cap);
    out.put_text(b"\", ");
}

fn put_node(out: &mut Output, s: &[u16], o: u16)
    requires { HasRoom 68 out.old × (8192 ≤ length s.now) × (o < 256) }
    ensures { Writes 68 s.now out.old out.new (λ S. o < length S.objects) (λ S. node_line o (object_at S.objects o)) }
{
    let cap = table::cap(s, o);
    put_label(out, o as usize, cap);
    put_look(out, cap);
    out.put_text(b"];\n");
}

fn put_nodes(out: &mut Output, s: &[u16])
    requires { HasRoom 17408 out.old × (8192 ≤ length s.now) }
    ensures { Writes 17408 s.now out.old out.new Any (λ S. numbered node_line 0 S.objects) }
{
    for o in 0..table::object_count(s) % 257 {
        put_node(out, s, o);
    }
}

// ---- Edges

// The edge of field j of object o, if the field holds an object.
fn put_edge(out: &mut Output, o: u16, j: u16, v: Value)
    requires { HasRoom 34 out.old }
    ensures { Wrote 34 out.old out.new (edge_line o j v) }
{
    if let Value::Obj(n) = v {
        out.put_text(b"  ");
        out.put_decimal(o as usize);
        out.put_text(b" -> ");
        out.put_decimal(n as usize);
        out.put_text(b" [label=\"");
        out.put_decimal(j as usize);
        out.put_text(b"\"];\n");
    }
}

// Those of one object.
fn put_fields(out: &mut Output, s: &[u16], o: u16)
    requires { HasRoom 136 out.old × (8192 ≤ length s.now) × (o < 256) }
    ensures { Writes 136 s.now out.old out.new (λ S. o < length S.objects) (λ S. edge_lines o (object_at S.objects o)) }
{
    for j in 0..4 {
        put_edge(out, o, j, table::field(s, o, j));
    }
}

fn put_edges(out: &mut Output, s: &[u16])
    requires { HasRoom 34816 out.old × (8192 ≤ length s.now) }
    ensures { Writes 34816 s.now out.old out.new Any (λ S. numbered edge_lines 0 S.objects) }
{
    for o in 0..table::object_count(s) % 257 {
        put_fields(out, s, o);
    }
}

// ---- The whole graph

pub fn put_drawing(out: &mut Output, s: &[u16])
    requires { HasRoom 52267 out.old × (8192 ≤ length s.now) }
    ensures { Writes 52267 s.now out.old out.new Any drawing }
{
    out.put_text(b"digraph objects {\n  node [style=filled];\n");
    put_nodes(out, s);
    put_edges(out, s);
    out.put_text(b"}\n");
}
