ghost use Rattle.cert_text.specs.Laws.{ReadIsItsText, TextIsRead};

/// A law with nothing to run: the text of a certificate is read as this certificate.
pub fn text_is_read()
    ensures { TextIsRead }
{}

/// A law with nothing to run: what a text is read as is a certificate whose text it is, so no two texts are read as one
/// certificate.
pub fn read_is_its_text()
    ensures { ReadIsItsText }
{}
