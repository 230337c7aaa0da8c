// The list of changed words: register, old value, new value.
ghost use Rattle.std.specs.Prelude.{◌≡◌, ◌+◌, ◌*◌, ◌<◌, eqb, length, set};
ghost use Rattle.lists.specs.Choice.{pick, choose};
ghost use Rattle.lists.specs.Over.{over};
ghost use Rattle.repair.specs.Changes.{changes_of, changed_of};

// A word's entry behind the `count` that are there, where it changed; how many there are then.
fn list_one(list: &mut [u32], count: usize, i: usize, old: u32, new: u32) -> usize
    requires { (3 * count + 2 < length list.old) × (i < 52) × (length list.old < 4294967296) }
    ensures value { result ≡ count + pick (eqb old new) 0 1 }
    ensures list_after { list.new ≡ choose (eqb old new) list.old
        (set (set (set list.old (3 * count) i) (3 * count + 1) old) (3 * count + 2) new) }
{
    if old == new {
        return count;
    }
    let at = 3 * count;
    list[at] = i as u32;
    list[at + 1] = old;
    list[at + 2] = new;
    count + 1
}

// Writes the list from the front, and answers how many words it has; the rest stays as it is.
pub fn list_changes<'a>(old: &'a [u32; 52], new: &'a [u32; 52], list: &mut [u32]) -> usize
    requires { length list.old ≡ 156 }
    ensures count { result ≡ changed_of old.now new.now }
    ensures list { list.new
        ≡ over (changes_of old.now new.now) list.old }
{
    let mut count: usize = 0;
    for i in 0..52 {
        count = list_one(list, count, i, old[i], new[i]);
    }
    count
}
