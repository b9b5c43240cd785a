//! What holds of the forms themselves, for whoever builds on them in a proof.
ghost use Rattle.field_encodings.specs.Laws.{FormsReadBack, EntriesHaveOneForm, FormsHaveTheirLength, OneTagIsSent, EntriesAreCarried};

use reduce_laws::Word;

/// Does nothing: its clauses are the laws of the forms.
pub fn form_laws<W: Word>()
    // The checks find in each form the entries from which it was made.
    ensures read_back { FormsReadBack W.WIDTH W.IsValue W.bytes_of W.value_of }
    // Under tags 1, 2 and 3 a set with its values has one form.
    ensures one_form { EntriesHaveOneForm W.IsValue W.bytes_of }
    // The table of lengths tells how long a form is.
    ensures length { FormsHaveTheirLength W.WIDTH W.IsValue W.bytes_of }
    // A form has an entry for each position with tag 0, else for each that is updated, and for no other.
    ensures carried { EntriesAreCarried W }
{}

/// Does nothing: the lengths of the forms decide which one is sent.
pub fn one_tag_is_sent()
    ensures { OneTagIsSent }
{}
