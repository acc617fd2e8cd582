// Laws of graphs, each the contract of a function with nothing in it: of orders and circles, of what is reached, and of orders by rank.
ghost use Rattle.cg_graphs.specs.CircleLaws.{CircleIsAtNode, OrderedHasNoCircle};
ghost use Rattle.cg_graphs.specs.RankLaws.{MentionsStandBefore, OrderHasNodes};
ghost use Rattle.cg_graphs.specs.ReachLaws.{MarksAreThere};

/// Where there is an order, there is no circle.
pub fn ordered_has_no_circle()
    ensures { OrderedHasNoCircle }
{}

/// The first node that mentions itself is one of the graph.
pub fn circle_is_at_node()
    ensures { CircleIsAtNode }
{}

/// For each graph and node there are marks of what is reached.
pub fn marks_are_there()
    ensures { MarksAreThere }
{}

/// Each node stands in the order, and nothing else.
pub fn order_has_nodes()
    ensures { OrderHasNodes }
{}

/// Where no node mentions itself, directly or through others, each stands behind all that it mentions.
pub fn mentions_stand_before()
    ensures { MentionsStandBefore }
{}
