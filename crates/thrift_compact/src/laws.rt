//! What is written reads back, and is passed over. Each law is a contract of an empty function.

ghost use Rattle.std.specs.Prelude.{◌≡◌, ◌≤◌, ◌++◌, ℕ, List, length, Ok};
ghost use Rattle.thrift_compact.specs.Trees.{Value, Fields, Shape, Shapes, at_shape, struct_at, known_at};
ghost use Rattle.thrift_compact.specs.Skipping.{max_nesting, skipped};
ghost use Rattle.thrift_compact.specs.Coded.{kind_of, coded, fields_coded, nesting};
ghost use Rattle.thrift_compact.specs.PageHeaders.{page_header};
ghost use Rattle.thrift_compact.specs.PageWriting.{page_fields, IsWritable, HasI32s};
ghost use Rattle.thrift_compact.specs.declared.page_headers.PageHeader.{PageHeader};
ghost use Rattle.thrift_compact.specs.Fitting.{Fits, FitsField, AllFields};

/// The bytes of a value that a table allows mean this value, whatever bytes follow it.
pub fn values_read_back()
    ensures { (s : Shape) (v : Value) (rest : List ℕ) → Fits s v → at_shape s (kind_of v) (coded v ++ rest) ≡ Ok (v, rest) }
{}

/// The bytes of a struct that a table allows mean its fields, whatever bytes follow its stop.
pub fn structs_read_back()
    ensures { (ss : Shapes) (fs : Fields) (rest : List ℕ) → AllFields (FitsField ss) 0 fs → struct_at (known_at ss) (fields_coded 0 fs ++ rest) ≡ Ok (fs, rest) }
{}

/// `Reader::skip` passes over the bytes of one value, and no others, whatever table allows it.
pub fn values_are_passed_over()
    ensures { (s : Shape) (v : Value) (rest : List ℕ) → Fits s v → nesting v ≤ max_nesting → skipped max_nesting (kind_of v) (coded v ++ rest) ≡ Ok rest }
{}

/// The bytes that are written for a page header mean this header, and it takes these bytes, whatever follows them.
pub fn page_headers_read_back()
    ensures { (h : PageHeader) (rest : List ℕ) → IsWritable h → HasI32s h → page_header (fields_coded 0 (page_fields h) ++ rest) ≡ Ok (h, length (fields_coded 0 (page_fields h))) }
{}
