//! What a machine has in hand, and the pending work that waits for it. Each item is a part of the program half done,
//! with the values that it has read, and lends its tree.

use dp_actions::{Reading, Signal};
use dp_bytes::{Bytes, Items};
use dp_state::{MomentKind, Outcome};
use dp_tree::{
    Arm, BinaryOp, Binding, Boxed, Definition, Expression, Function, Inclusion, Item, Link, Native,
    Order, Place, Statement, UnaryOp,
};
use dp_value::Value;

/// What a finished part gives to the one that waits for it.
#[derive(Drop)]
pub enum Given {
    Value(Value),
    Values(Items<Value>),
    Signal(Signal),
}

/// What stands at the head of a loop of turns.
#[derive(Clone, Copy)]
pub enum Head<'p> {
    /// The test of a `while`.
    While(&'p Expression),
    /// The tests of a `for`, and what comes after its body.
    For(&'p Items<Expression>, &'p Items<Expression>),
}

/// A `while` or a `for`: the line of its turns, its head and its body.
#[derive(Clone, Copy)]
pub struct Turns<'p> {
    pub line: u32,
    pub head: Head<'p>,
    pub body: &'p Boxed<Statement>,
}

/// A `do`: the line of its test, the test, and the body.
#[derive(Clone, Copy)]
pub struct DoTurns<'p> {
    pub line: u32,
    pub test: &'p Expression,
    pub body: &'p Boxed<Statement>,
}

/// A `foreach`: the line of its turns, the variables that it binds, and the body.
#[derive(Clone, Copy)]
pub struct EachTurns<'p> {
    pub line: u32,
    pub binding: &'p Binding,
    pub body: &'p Boxed<Statement>,
}

/// What is to be done first. Parts that are left of a list are those from a position on.
#[derive(Drop)]
pub enum Hand<'p> {
    /// A part is finished.
    Give(Given),
    Evaluate(&'p Expression),
    /// To the left of `??`.
    Find(&'p Boxed<Expression>),
    /// The values so far, and the expressions that are left.
    Values(Items<Value>, &'p Items<Expression>, usize),
    /// A literal so far, and its items that are left.
    Items(Value, &'p Items<Item>, usize),
    /// The left operand, and what is joined to it.
    Links(Value, &'p Items<Link>, usize),
    /// A value, and the indices under which it is read. What stands on the way to an entry is not copied.
    Under(Reading, Value, &'p Items<Expression>, usize),
    /// Places that are set as far as the first of these.
    Isset(&'p [Place]),
    /// A call of a function of the file of this number.
    Call(u32, &'p Function, Items<Value>),
    /// An inclusion of the file of this number.
    Include(u32),
    /// A statement.
    Run(&'p Statement),
    /// An expression as a statement, whose moment has come.
    Effect(&'p Expression),
    /// The value of a `return`, whose moment has come.
    Returning(&'p Expression),
    /// The test of the arm at a position, whose moment has come, and what is done where no test holds.
    Choose(&'p Items<Arm>, usize, &'p Option<Boxed<Statement>>),
    /// Statements, one after another.
    Each(&'p Items<Statement>, usize),
    /// The operands of an `echo`.
    Echo(&'p Items<Expression>, usize),
    /// The arms of an `if`, and what is done where no test holds.
    Arms(&'p Items<Arm>, usize, &'p Option<Boxed<Statement>>),
    /// The names that a `global` binds.
    Global(&'p [Bytes]),
    /// The places of an `unset` that are left.
    Unset(&'p [Place]),
    /// The constants that a `const` defines.
    Constants(&'p Items<Definition>, usize),
    /// At most so many turns.
    Turn(Turns<'p>, u64),
    /// At most so many turns.
    DoTurn(DoTurns<'p>, u64),
    /// The turns from the entry at a position on.
    EachTurn(EachTurns<'p>, Value, usize),
    /// A call whose body is done has left.
    Left(Signal),
    /// An included file is done.
    LeftFile(Signal),
    /// The program is over.
    Over(Outcome),
    /// Out of memory came.
    Failed,
}

/// A list of parts that waits for the value of one of them.
#[derive(Drop)]
pub enum ForPart<'p> {
    /// The values before it, and the expressions behind it.
    More(Items<Value>, &'p Items<Expression>, usize),
    /// The literal before an item that goes last, and the items behind it.
    PushItem(Value, &'p Items<Item>, usize),
    /// The literal before the item at a position, whose key is evaluated.
    KeyItem(Value, &'p Items<Item>, usize),
    /// The literal before an item, its key, and the items behind it.
    PutItem(Value, Value, &'p Items<Item>, usize),
    /// The first operand of a chain is evaluated.
    Links(&'p Items<Link>),
    /// The right operand of `||` or `&&` decides.
    Tested(&'p Items<Link>, usize),
    /// The left operand of an operator, and what is joined behind it.
    Operate(BinaryOp, Value, &'p Items<Link>, usize),
    /// What is read under indices is evaluated.
    Under(Reading, &'p Items<Expression>),
    /// A value whose index is evaluated, and the indices behind it.
    Entry(Reading, Value, &'p Items<Expression>, usize),
}

/// An expression that waits for the value of a part.
#[derive(Drop)]
pub enum ForValue<'p> {
    Unary(UnaryOp),
    /// The left operand of `??` is evaluated.
    Coalesce(&'p Boxed<Expression>),
    /// The test of a conditional is evaluated.
    Choose(&'p Option<Boxed<Expression>>, &'p Boxed<Expression>),
    /// The right side of an assignment under these indices.
    Assign(&'p Bytes, Items<Value>, bool),
    /// The right side of a compound assignment, whose old value is read.
    Combine(BinaryOp, &'p Bytes, Items<Value>, Value),
}

/// An expression that waits for values: arguments, or the indices of a place.
#[derive(Drop)]
pub enum ForValues<'p> {
    Native(Native),
    Assign(&'p Bytes, bool, &'p Boxed<Expression>),
    Compound(BinaryOp, &'p Bytes, &'p Boxed<Expression>),
    CoalesceAssign(&'p Bytes, &'p Boxed<Expression>),
    Step(UnaryOp, Order, &'p Bytes),
    /// A place, and the places behind it.
    Isset(&'p Bytes, &'p [Place]),
}

/// A statement that waits for a value.
#[derive(Drop)]
pub enum AfterValue<'p> {
    /// The value of an expression as a statement.
    Discard,
    /// An operand of an `echo`, and those from a position on.
    Echoed(&'p Items<Expression>, usize),
    /// The value of the constant of a name, and those from a position on.
    Defined(&'p Bytes, &'p Items<Definition>, usize),
    /// The test of the arm at a position, and what is done where no test holds.
    Branch(&'p Items<Arm>, usize, &'p Option<Boxed<Statement>>),
    /// The value of a `return`.
    ReturnIt,
    /// The value of an `exit`.
    ExitWith,
    /// The test of a turn of a `while`, after which at most so many are left.
    Test(Turns<'p>, u64),
    /// The test of a `do` that has at most so many turns left.
    DoTest(DoTurns<'p>, u64),
    /// The subject of a `foreach`.
    Subject(EachTurns<'p>),
}

/// What waits for values, beside expressions.
#[derive(Drop)]
pub enum AfterValues<'p> {
    /// A function of the file of this number.
    Call(u32, &'p Function),
    /// A place, and the places behind it.
    Unset(&'p Bytes, &'p [Place]),
    /// What comes before the turns of a `for`, or between two of them, of which at most so many are left.
    Turns(Turns<'p>, u64),
    /// The tests of a turn, after which at most so many are left.
    Tests(Turns<'p>, u64),
}

/// What waits for a signal.
#[derive(Drop)]
pub enum ForSignal<'p> {
    /// A statement, and those from a position on.
    Rest(&'p Items<Statement>, usize),
    /// The body of a turn, after which at most so many are left; or the tests of that turn, if they are due, since its
    /// moment has come.
    Body(Turns<'p>, u64, bool),
    /// The body of a turn of a `do`, after which at most so many are left; or the test behind it, if it is due, since
    /// its moment has come.
    DoBody(DoTurns<'p>, u64, bool),
    /// The body of a turn of a `foreach`, the subject, and the position of the entry behind it; or the turn of that
    /// entry, if it is due, since its moment has come.
    EachBody(EachTurns<'p>, Value, usize, bool),
}

/// A part that waits for what is in hand.
#[derive(Drop)]
pub enum Work<'p> {
    ForPart(ForPart<'p>),
    ForValue(ForValue<'p>),
    ForValues(ForValues<'p>),
    /// The name of a file is evaluated.
    Include(Inclusion),
    AfterValue(AfterValue<'p>),
    AfterValues(AfterValues<'p>),
    ForSignal(ForSignal<'p>),
}

/// An item of the pending work. Once a call or an included file is done, so many frames more can be on the stack.
#[derive(Drop)]
pub enum Waiting<'p> {
    Part(Work<'p>),
    EndCall(u64),
    EndFile(u64),
}

/// What is to be done next, and what waits for it beside the pending work, if anything does.
#[derive(Drop)]
pub struct Next<'p> {
    pub hand: Hand<'p>,
    pub waits: Option<Work<'p>>,
}

/// What a small step comes to: what is to be done next, behind a moment of this kind on this line of the top frame, if
/// there is one.
#[derive(Drop)]
pub struct Small<'p> {
    pub moment: Option<(MomentKind, u32)>,
    pub next: Next<'p>,
}
