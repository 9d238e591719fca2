//! What holds of all documents. Nothing runs.

ghost use Rattle.std.specs.Prelude.{ℕ, List};
ghost use Rattle.mfjson.specs.declared.feature.Feature.{Feature};
ghost use Rattle.mfjson.specs.Document.{IsDocumentOf, IsDocumentOfNoOther};

/// No bytes are the document of two features.
pub fn a_document_is_of_one_feature()
    ensures { (text : List ℕ) (f : Feature) → IsDocumentOf text f → IsDocumentOfNoOther text f }
{}
