// Whether numbers of nodes show that the first nodes are on no circle.
ghost use Rattle.std.specs.Prelude.{◌≡◌, length, get_or};
ghost use Rattle.std.specs.Bool.{OnTrue};
ghost use Rattle.std.specs.List.{All};
ghost use Rattle.cg_graphs.specs.Orders.{lists};
ghost use Rattle.cg_graphs.specs.Numbers.{Fall, IsAtMost, IsBelow, StayOrFall};

/// Whether no mention is of a node with a higher number.
pub fn stay_or_fall(edges: &[Vec<u32>], numbers: &[usize]) -> bool
    ensures { OnTrue result (StayOrFall (lists edges.now) numbers.now (length edges.now)) }
{
    for at in 0..edges.len() {
        if !are_at_most(&edges[at], numbers, number_of(numbers, at)) {
            return false;
        }
    }
    true
}

/// How many nodes there are before the first that mentions one with no lower number.
pub fn fall_until(edges: &[Vec<u32>], numbers: &[usize]) -> usize
    ensures { Fall (lists edges.now) numbers.now result }
{
    for at in 0..edges.len() {
        if !are_below(&edges[at], numbers, number_of(numbers, at)) {
            return at;
        }
    }
    edges.len()
}

// Whether each of these nodes has this number or a lower one.
fn are_at_most(targets: &[u32], numbers: &[usize], number: usize) -> bool
    ensures { OnTrue result (All (IsAtMost numbers.now number) targets.now) }
{
    targets
        .iter()
        .all(|target| number_of(numbers, *target as usize) <= number)
}

// Whether each of these nodes has a lower number.
fn are_below(targets: &[u32], numbers: &[usize], number: usize) -> bool
    ensures { OnTrue result (All (IsBelow numbers.now number) targets.now) }
{
    targets
        .iter()
        .all(|target| number_of(numbers, *target as usize) < number)
}

// The number of a node.
fn number_of(numbers: &[usize], node: usize) -> usize
    ensures { result ≡ get_or numbers.now node 0 }
{
    if node < numbers.len() {
        numbers[node]
    } else {
        0
    }
}
