// A record of a table by its number. Records are counted from 1: record j is at place j - 1.
ghost use Rattle.std.specs.Prelude.{◌≡◌};
ghost use Rattle.basics.specs.Lists.{element_at, set_at};

// Record j of a table; `absent` where there is none.
pub fn record_at<T: Copy>(table: &[T], j: usize, absent: T) -> T
    ensures { result ≡ element_at absent table.now j }
{
    if 1 <= j && j <= table.len() {
        table[j - 1]
    } else {
        absent
    }
}

// Record j of a table becomes `item`; where there is none, the table stays.
pub fn put_at<T: Copy>(table: &mut [T], j: usize, item: T)
    ensures { table.new ≡ set_at table.old j item }
{
    if 1 <= j && j <= table.len() {
        table[j - 1] = item;
    }
}
