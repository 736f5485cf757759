// The domains of the parameters of the method under test.
ghost use Rattle.std.specs.Prelude.{◌≡◌, [], All, IfOk, map};
ghost use Rattle.std.proofs.Common.{get_or};
ghost use Rattle.kr_space.specs.Vocabulary.{IsParameter, key_of_parameter, parameter_shown, root_of, tested_parameters, Testing};
ghost use Rattle.kr_space.specs.Basis.{IsBasis, setting_on};
ghost use Rattle.kr_space.specs.Pools.{params_given, pool};

use crate::basis::Basis;
use crate::keys::joined;
use crate::places::parameter_domain;
use kr_ast::tree_of;
use kr_base::NoMemory;
use kr_fin::Listed;
use kr_mean::Mode;
use kr_space_rules::{Parameter, instance_parameters};
use std::alloc::Global;

/// The key of a parameter of a method.
fn parameter_key(
    alloc: Global,
    basis: &Basis,
    method: &[u8],
    parameter: Parameter,
) -> Result<Vec<u8>, NoMemory>
    requires { IsParameter basis.now.classes.now.trees.now parameter }
    ensures { IfOk result (λ key. key.items ≡ key_of_parameter (Testing method.now) (parameter_shown basis.now.classes.now.trees.now parameter)) }
{
    let owner = joined(alloc, method, b".".as_slice())?;
    let name = tree_of(basis.classes.trees, parameter.file).name(parameter.name);
    joined(alloc, &owner, name)
}

/// The numbers of the domains of some parameters of a method.
fn numbers_of(
    alloc: Global,
    basis: &Basis,
    method: &[u8],
    parameters: &[Parameter],
) -> Result<Listed<u32>, NoMemory>
    requires basis { IsBasis basis.now }
    requires parameters { All (IsParameter basis.now.classes.now.trees.now) parameters.now }
    ensures { IfOk result (λ numbers. map (λ n. get_or (pool (setting_on basis.now) basis.now.document.now) n []) numbers ≡ map (λ p. params_given (setting_on basis.now) basis.now.document.now (key_of_parameter (Testing method.now) p)) (map (parameter_shown basis.now.classes.now.trees.now) parameters.now)) }
{
    let mut numbers = Listed::new(alloc);
    for parameter in parameters {
        let key = parameter_key(alloc, basis, method, *parameter)?;
        numbers.push(parameter_domain(basis.keys, basis.document, &key))?;
    }
    Ok(numbers)
}

/// The numbers of the domains of the parameters of the method under test, where one is tested.
#[tactic(auto, unfolding(kr_space_meaning::specs::Bounds::setting_of, kr_classes_table::specs::Table::table_of))]
pub(crate) fn parameter_domains(
    alloc: Global,
    basis: &Basis,
    mode: &Mode,
    root: Option<u32>,
) -> Result<Listed<u32>, NoMemory>
    requires basis { IsBasis basis.now }
    requires root { root ≡ root_of (setting_on basis.now) }
    ensures { IfOk result (λ numbers. map (λ n. get_or (pool (setting_on basis.now) basis.now.document.now) n []) numbers ≡ map (λ p. params_given (setting_on basis.now) basis.now.document.now (key_of_parameter mode.now p)) (tested_parameters (setting_on basis.now) mode.now)) }
{
    match mode {
        Mode::List => Ok(Listed::new(alloc)),
        Mode::Method(name) => {
            let method = name.as_str().as_bytes();
            let parameters = instance_parameters(alloc, basis.classes, root, method)?;
            numbers_of(alloc, basis, method, &parameters)
        }
    }
}
