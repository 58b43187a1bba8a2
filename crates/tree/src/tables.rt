// What stands at each node.
ghost use Rattle.std.specs.Prelude.{◌≡◌, None, slice_index_or, slice_set};

/// What stands at a node; nothing where there is no such node.
pub(crate) fn at_node(table: &[Option<u8>; 64], node: u8) -> Option<u8>
    ensures { result ≡ slice_index_or table.now node None }
{
    table.get(node as usize).copied().flatten()
}

/// Changes what stands at a node; nothing changes where there is no such node.
pub(crate) fn set_node(table: &mut [Option<u8>; 64], node: u8, entry: Option<u8>)
    ensures { table.new ≡ slice_set table.old node entry }
{
    // By index: after a `get_mut` no element is known.
    if (node as usize) < table.len() {
        table[node as usize] = entry;
    }
}
