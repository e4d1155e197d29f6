// Theorems on the drawings of a shape: what is kept apart is drawn apart. Each function answers a number, and its contract is the theorem.
#![tactic(auto)]

ghost use Rattle.drawings.specs.Theorems.{WaysAreNumbered, PairIsOneOfThree, WaysByReach, ObeyingIsSimple, SteppingIsSimple, CompleteIsDrawn, ArcsOfASimpleDrawing, DrawingIsReached, GapsOfOneStep, CrossingIsTouch, ContradictoryHasNoDrawing};
ghost use Rattle.drawings.specs.Theorems.{TotalByNeed, LayIsShortest, LayTotalIsFlow, DraftExists, DraftIsOne, LayExists, LayIsOne, DraftWithin, LayWithin, TotalWithin};
ghost use Rattle.drawings.specs.Theorems.{LayShowsGreatest, WithoutLayNotGreatest, LabelsTellCircles, LabelsTellGreatest, GreatestFlowExists, GreatestFlowsAgree, CellsWithin};
ghost use Rattle.drawings.specs.Examples.{OnePoint, TwoPoints, FivePoints, Hook, Square, ConditionsOfSimple};

// How many ways keep a row and a column apart: the row lies left of the column, right of it, below it or above it.
pub fn ways_apart() -> usize
    ensures numbered { WaysAreNumbered result }
    ensures either { PairIsOneOfThree }
    ensures reach { WaysByReach }
{
    let ways = 4;
    ways
}

// By how much b lies beyond a, at the least, where a drawing gives the arc a→b: one step. It is enough for a simple drawing.
pub fn step_of_arcs() -> usize
    ensures simple { ObeyingIsSimple }
    ensures steps { SteppingIsSimple result }
    ensures complete { CompleteIsDrawn }
    ensures arcs { ArcsOfASimpleDrawing result }
    ensures reached { DrawingIsReached result }
    ensures gaps { GapsOfOneStep result }
    ensures crossing { CrossingIsTouch }
    ensures contradictory { ContradictoryHasNoDrawing }
{
    let step = 1;
    step
}

// How many numbers can name a segment of one direction, each with its term in the total: as many as there are points.
pub fn terms_of_total(points: usize) -> usize
    ensures need { TotalByNeed points result }
    ensures shortest { LayIsShortest }
    ensures flow { LayTotalIsFlow }
{
    let terms = points;
    terms
}

// The largest coordinate of draft and lay, by gaps of so much at the most: one gap for each point but the first.
pub fn largest_coordinate(gap: u32, points: u32) -> u64
    ensures draft { DraftExists × DraftIsOne }
    ensures lay { LayExists × LayIsOne }
    ensures within { DraftWithin gap points result × LayWithin gap points result }
{
    let further = points.saturating_sub(1);
    u64::from(gap) * u64::from(further)
}

// The largest total of a drawing, by coordinates of so much at the most: two directions, each with a wire for each point but the last.
pub fn largest_total(coordinate: u16, points: u16) -> u64
    ensures within { TotalWithin coordinate points result }
{
    let wires = points.saturating_sub(1);
    let along = u32::from(coordinate) * u32::from(wires);
    2 * u64::from(along)
}

// The round of places that tells whether the arcs close a circle, and over the flow layer whether a balanced flow is greatest: the number of points.
pub fn telling_round(points: usize) -> usize
    ensures circles { LabelsTellCircles points result }
    ensures tells { LabelsTellGreatest points result }
    ensures shows { LayShowsGreatest }
    ensures without { WithoutLayNotGreatest }
{
    let round = points;
    round
}

// The largest cell of a balanced flow over arcs that close no circle: one unit for each wire of the direction, and so for each point but one.
pub fn largest_cell(points: usize) -> usize
    ensures within { CellsWithin points result }
    ensures exists { GreatestFlowExists }
    ensures agree { GreatestFlowsAgree }
{
    let most = points.saturating_sub(1);
    most
}

// How many conditions make a drawing simple: points apart, wires apart, and no wire over a point. Each of them can fail alone.
pub fn conditions_of_simple() -> usize
    ensures count { ConditionsOfSimple result }
{
    let conditions = 3;
    conditions
}

// The total of a sheet of one point: nothing.
pub fn one_point() -> usize
    ensures sheet { OnePoint result }
{
    let length = 0;
    length
}

// The column that is open with row 1 where two points are not joined, and apart from it once an arc stands: that of point 2.
pub fn two_points() -> usize
    ensures sheet { TwoPoints result }
{
    let column = 2;
    column
}

// The least total of the sheet of five points.
pub fn five_points() -> usize
    ensures sheet { FivePoints result }
{
    let length = 5;
    length
}

// The least total of the hook; draft's is 5.
pub fn hook() -> usize
    ensures sheet { Hook result }
{
    let length = 4;
    length
}

// The column that the arcs of the contradictory square lead back to.
pub fn square() -> usize
    ensures sheet { Square result }
{
    let column = 4;
    column
}
