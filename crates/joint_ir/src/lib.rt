//! The joint program: a typed C program, a flat Verilog module and what binds them; what a run of the two is, and what
//! it weighs.
//!
//! Knows nothing of texts or grammars, of how a run is carried out, and of how all runs are searched.
#![tactic(auto)]

pub mod bounds;
pub mod ctype;
pub mod event;
pub mod expr;
pub mod lookup;
pub mod module;
pub mod naming;
pub mod pair;
pub mod program;
pub mod stmt;
pub mod way;
pub mod weighing;

pub use bounds::{ACTIVATIONS, Bounds, Limit, LimitList};
pub use ctype::{INT, IntType, UNSIGNED};
pub use event::{Choices, Event, EventList, Outcome, Shown, ShownList};
pub use expr::{BinaryOp, LogicOp, Slot, TExpr, TExprList, TNode, UnaryOp};
pub use module::{FirstList, FlatModule, Role, Signal, SignalList, Site, SiteList};
pub use naming::{NamedLimit, NamedLimitList, limits};
pub use pair::{Binding, Link, LinkList, Pair};
pub use program::{
    CProgram, Function, FunctionList, Member, MemberList, MirrorDecl, Prop, PropId, PropKind,
    PropList, ValueList, Var, VarList,
};
pub use stmt::{
    Group, GroupList, Label, LabelList, SNode, TCall, TInit, TLoop, TStmt, TStmtList, TTarget,
    TUpdate,
};
pub use way::Way;
pub use weighing::weight;
