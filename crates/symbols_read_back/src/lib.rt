// The files with their symbols, in a head: what was read of a section is read again.
#![tactic(auto)]

ghost use Rattle.std.specs.List.{flat_map};
ghost use Rattle.facts.specs.Laws.{ReadsBack};
ghost use Rattle.facts.specs.Written.{sized_bytes};
ghost use Rattle.simpleperf.specs.Tables.{symbol_tables};

// The files with their symbols that were read of a section are read again from their bytes in a head.
pub fn symbol_tables_read_back()
    ensures { ReadsBack symbol_tables (flat_map sized_bytes) }
{}
