//! What the declarations of a module make of the names that are known so far (IEEE 1364-2005, clause 4, 12.2 and 12.3.3).
#![tactic(auto)]

pub mod overrides;
pub mod parameters;
pub mod shapes;
pub mod signals;
pub mod values;

pub use overrides::{Given, Overrides, given_for, overrides_of, parameter_numbers};
pub use parameters::{ParameterForm, declare_localparams, declare_parameters};
pub use shapes::{memory_shape, range_shape, shape_of};
pub use signals::{
    Declared, ListedPort, SignalForm, Stage, declare_instance, declare_integer, declare_item,
    declare_signal, direct_port, list_port, net_form, port_form, register_form,
};
pub use values::given_constant;
