// What holds of all tasks and edges: a law of the definitions, which is proved with this function and
// costs nothing when it runs.
ghost use Rattle.glk_order.specs.Order.{IsOneOrder};

/// Tasks have one order, or none.
pub fn one_order()
    ensures { IsOneOrder }
{}
