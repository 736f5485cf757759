// Names of classes, fields and parameters are identifiers of the source.
ghost use Rattle.kr_shard_laws.specs.Names.{ContractLinesLaw, NamesLaw};

/// The name of each class, field and parameter in files that were read is an identifier.
pub fn names_law()
    ensures { NamesLaw }
{}

/// No method in files that were read has more contract lines than the longest has bytes.
pub fn contract_lines_law()
    ensures { ContractLinesLaw }
{}
