//! The laws can be called, and built-in goals have their names.

use tp_build::find;
use tp_meaning::{BuiltId, DeadCause, laws};
use tp_terms::symbols::VAR;

#[test]
fn laws_can_be_called(rt: HostRuntime) {
    laws::search_rules();
    laws::stamps_rise();
    laws::one_unifier();
    laws::reserved_names();
    assert!(rt; DeadCause::Failed != DeadCause::Late);
}

#[test]
fn built_ins_by_name(rt: HostRuntime) {
    assert!(rt; find(VAR, 1) == Some(BuiltId::Var));
    assert!(rt; find(VAR, 2).is_none());
}
