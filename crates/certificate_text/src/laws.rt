ghost use Rattle.certificate_text.specs.Laws.{NeverBoth, NoPrefix, OneText, OneValue};

/// A certificate has one text at most.
pub fn one_text()
    ensures { OneText }
{}

/// A text stands for one certificate at most.
pub fn one_value()
    ensures { OneValue }
{}

/// No proper prefix of a certificate's text is a text of any certificate.
pub fn no_prefix()
    ensures { NoPrefix }
{}

/// No text is both read and refused.
pub fn never_both()
    ensures { NeverBoth }
{}
