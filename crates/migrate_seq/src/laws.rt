//! Laws of migrations. Each function does nothing: its contract is the law.
ghost use Rattle.migrate_seq.specs.Laws as laws;

/// Each value is that of the versions of one schema at most, so that what was sent is read back.
pub fn one_schema_each()
    ensures { laws.OneSchemaEach }
{}

/// In a map after some migrations up each record is what they make of it alone. So going through the map once a
/// migration is going through the migrations record by record.
pub fn each_record_alone()
    ensures { laws.EachRecordAlone }
{}
