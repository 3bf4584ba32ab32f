// The redundant nodes of a stripe in groups (change request C-16): a node is added to only when all nodes of the earlier groups were.
#![tactic(auto)]

ghost use Rattle.std.specs.Prelude.{cond, ◌&&◌, [], ◌∷◌, ◌++◌, ◌≡◌, ℕ, ◌+◌, ◌≤◌, leb, get_or};
ghost use Rattle.groups.specs.Groups.{group_limit, total, groups_fit, earlier_nodes};
ghost use Rattle.groups.specs.View.{group_sizes, groups_of, one_group, impossible, kept};

// Bit g - 1 of eight says whether the g-th redundant node is the last of its group; seen as the groups' sizes (group_sizes).
#[derive(Clone, Copy)]
pub struct Groups {
    ends: usize,
}

impl Groups {
    // The nodes that a group has at least.
    const LEAST: usize = 1;

    // The nodes that eight bits have room for.
    const ROOM: usize = 8;

    // One more than eight bits.
    const END: usize = 256;

    pub fn none() -> Self
        ensures { result ≡ groups_of [] }
    {
        Groups { ends: 0 }
    }

    // One group of so many nodes; no group where there is none, or more than a stripe can have.
    pub fn one(size: usize) -> Self
        ensures { result ≡ one_group size }
    {
        if size == 0 || Groups::ROOM < size {
            return Groups::none();
        }
        Groups {
            ends: 1usize << (size - 1),
        }
    }

    // Groups of these sizes; sizes that no stripe can have are kept as others that no stripe has.
    pub fn of(sizes: &[u8]) -> Self
        ensures { group_sizes result ≡ kept sizes.now }
    {
        let mut groups = Groups::none();
        for size in sizes {
            groups = groups.with(*size as usize);
        }
        groups
    }

    // These groups and one more after them.
    pub fn with(self, size: usize) -> Self
        ensures { group_sizes result
            ≡ cond (leb 1 size && leb (total (group_sizes self) + size) 8) (group_sizes self ++ (size ∷ [])) impossible }
    {
        let nodes = self.nodes();
        if size < Groups::LEAST || Groups::ROOM - nodes < size {
            return Groups { ends: 255 };
        }
        Groups {
            ends: self.ends | 1usize << (nodes + size - 1),
        }
    }

    // How many nodes the groups have.
    fn nodes(self) -> usize
        ensures { (result ≡ total (group_sizes self)) × (result ≤ 8) }
    {
        if Groups::END <= self.ends {
            return Groups::ROOM;
        }
        64 - usize::leading_zeros(self.ends) as usize
    }

    // Whether these are the groups of so many redundant nodes.
    pub fn fit(self, redundant: usize) -> bool
        requires { (1 ≤ redundant) × (redundant ≤ group_limit) }
        ensures { result ≡ groups_fit redundant (group_sizes self) }
    {
        self.ends >> (redundant - 1) == 1
    }

    // How many redundant nodes are in the groups before that of the j-th.
    pub fn earlier(self, j: usize) -> usize
        requires { (1 ≤ j) × (j ≤ group_limit) × (total (group_sizes self) ≤ group_limit) }
        ensures { result ≡ earlier_nodes (group_sizes self) j }
    {
        let before = Groups {
            ends: self.ends % (1usize << (j - 1)),
        };
        before.nodes()
    }

    // The size of group i, i from 0; 0 if there is none.
    pub fn size(self, i: usize) -> u8
        requires { total (group_sizes self) ≤ group_limit }
        ensures { result ≡ get_or (group_sizes self) i 0 }
    {
        let mut ends = self.ends;
        let mut left = i;
        let mut run = 0u8;
        for _w in (0..Groups::ROOM).rev() {
            run += 1;
            if ends % 2 == 1 {
                if left == 0 {
                    return run;
                }
                left -= 1;
                run = 0;
            }
            ends /= 2;
        }
        0
    }
}
