// The typing of contracts.
ghost use Rattle.kr_laws_never_stuck.specs.TypedContracts.{ContractsLaw};

/// In well typed files each condition before a method is a boolean expression, and each `\old` holds an expression of a type, which
/// is known by its place.
pub fn contracts_law()
    ensures { ContractsLaw }
{}
