// Frames that wait for a value, for a statement's end, or for a step without a value.

use kr_ast::StepOperator;
use kr_code::{CollectionCall, Nodes};
use kr_mean::{BinaryOperation, StepOperation, UnaryOperation};
use kr_run_state::Cell;
use kr_value::{Class, Value};

/// The use of arguments.
#[derive(Clone, Copy)]
pub enum Goal {
    /// Nothing that is known.
    Stop,
    /// A method, on a receiver.
    Run(Value, Option<u32>),
    /// The method that `this`'s class has.
    Own(u32),
    /// The method that an object's class has.
    On(u32, Value),
    /// A static method, called through an object.
    StaticOn(u32, Value),
    /// A new object of a class.
    New(u32),
    /// A new collection.
    NewCollection(Class),
    /// A call on a collection.
    Collect(CollectionCall, Value),
}

/// The rest of a creation once the arguments of a superclass's constructor are there: the line of classes and the object, and
/// then initial values and body.
#[derive(Clone, Copy)]
pub struct Up {
    pub line: Nodes,
    pub object: Value,
    pub initialisers: Nodes,
    pub body: Nodes,
}

/// How a variable changes: by one, or by an operator with an operand.
#[derive(Clone, Copy)]
pub enum Change {
    Step(StepOperation),
    Compound(BinaryOperation, u32),
}

/// A loop.
#[derive(Clone, Copy)]
pub enum Loop {
    While(u32, u32),
    /// Condition, updates and body.
    For(Option<u32>, Nodes, u32),
}

/// A frame that writes a variable, from a value.
#[derive(Clone, Copy)]
pub enum WriteFrame {
    /// A variable gets the value.
    Put(Cell),
    /// A field of `this` gets it.
    PutOwn(u32),
    /// The value of an object's field comes next.
    FieldOf(u32, u32),
    /// Index, value and array type come next.
    ItemOf(u32, u32, u32),
    ItemAt(u32, u32, Value),
    /// A field, by its name and as one that is stored, changes.
    AlterField(Change, u32, u32),
    AlterItemOf(Change, u32, u32),
    AlterItemAt(Change, u32, Value),
    /// A variable that had a value gets the next one, and one of both is given.
    Stepped(StepOperator, Cell, Value),
    /// A variable changes from the value.
    Alter(Change, Cell),
}

/// A frame that makes a value of a value.
#[derive(Clone, Copy)]
pub enum ValueFrame {
    Load(u32),
    ElementOf(u32),
    ElementAt(Value),
    Unary(UnaryOperation),
    Left(BinaryOperation, u32),
    Right(BinaryOperation, Value),
    AndThen(u32),
    OrElse(u32),
    Choose(u32, u32),
    Instance(u32),
    Cast(u32),
    NewArray(Option<u32>, Value),
    CallOn(u32, Nodes),
    StaticCallOn(u32, Nodes),
    CallCollection(CollectionCall, Nodes),
    /// A variable is written.
    Write(WriteFrame),
}

/// A frame that goes on after a value.
#[derive(Clone, Copy)]
pub enum TestFrame {
    Then(u32),
    Branch(u32, u32),
    Discard,
    Return,
    Throw,
    /// A local's initial value; the other declarators come next.
    Initial(u32, Nodes),
    /// A local is declared; its initial value, if any, comes next, and then the other declarators.
    Declared(u32, Option<u32>, Nodes),
    Rest(Nodes),
    Updates(Nodes),
    /// A round's unit is spent.
    Begin(Loop),
    Test(Loop),
}

/// A frame that goes on after a statement.
#[derive(Clone, Copy)]
pub enum FlowFrame {
    Rest(Nodes),
    Again(Loop),
    Update(Nodes),
    First(Loop),
}

/// The next step of a creation.
#[derive(Clone, Copy)]
pub enum UnitFrame {
    /// The superclass's constructor is done.
    Behind(Value, Nodes, Nodes),
    /// The initial values are there.
    Body(Nodes),
    Initialise(Nodes, Value),
}

/// A frame as the stack keeps it: in place of a list, where that begins among those of all frames. Places and counts are kept in 32
/// bits, which makes frames smaller.
#[derive(Clone, Copy)]
pub enum Waiting {
    Value(ValueFrame),
    Test(TestFrame),
    Flow(FlowFrame),
    Unit(UnitFrame),
    /// Arguments: the nodes that are left, and the values that are there.
    Arguments(Goal, Nodes, u32),
    UpArguments(Up, Nodes, u32),
    /// The unit of a written call of the superclass's constructor is spent.
    UpEnter(Up, Nodes),
    /// The constructors of a line of classes, on an object, with arguments.
    Construct(Nodes, Value, u32),
    /// The locals of a block end: so many were there before.
    Scope(u32),
    /// The block of a `try` ends: what is thrown in it is caught by the first of these clauses that fits.
    Catch(Nodes),
    /// A method's body ends, and gives no value or one: `this` and the locals are those of its caller.
    Leave(bool, Value, u32),
    /// A constructor's body ends.
    Complete,
    /// `this` and the locals are those from before, where something is done on a new object.
    Back(Value, u32),
    /// The new object is given.
    Made(Value),
    /// A field gets its initial value, on an object.
    Store(u32, Value),
}
