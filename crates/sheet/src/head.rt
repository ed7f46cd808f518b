// How the page begins.
ghost use Rattle.std.specs.Prelude.{◌≡◌, ◌++◌};
ghost use Rattle.text.specs.Text.{write};
ghost use Rattle.sheet.specs.Head.{document_head, style_parts, page_head};

// A constant for each part: every call has its price in the check.
pub(crate) fn put_page(out: &mut [u8], at: usize) -> usize
    ensures { (out.new, result) ≡ write (out.old, at) page_head }
{
    let a = put_start(out, at);
    let b = text::put_all(
        out,
        a,
        b"table{border-collapse:collapse;margin:2mm 0;font-size:8pt}\n\
        th,td{border:1px solid black;padding:0.5mm 1mm;text-align:left;vertical-align:top}\n\
        #traces td:nth-child(2){overflow-wrap:anywhere}\n\
        #sources td:nth-child(2){overflow-wrap:anywhere;min-width:20mm}\n\
        #traces td:last-child{min-width:24mm}\n#traces table{margin-bottom:0}\n\
        tbody th{white-space:nowrap}\n\
        h2,dt{break-after:avoid}\n\
        dt{font-weight:bold}\n",
    );
    let c = text::put_all(
        out,
        b,
        b"thead{display:table-header-group}\n\
        tr{break-inside:avoid}\n\
        @page{size:A4;margin:10mm}\n\
        @media print{body{padding:0}}\n",
    );
    text::put_all(
        out,
        c,
        b"</style>\n</head>\n<body>\n<section id=\"traces\">\n<h2>Traces</h2>\n<table>\n<thead>\n\
        <tr><th>trace</th><th>name</th><th>steps played</th><th>steps refused</th><th>marks opened</th>\
        <th>idle ends</th><th>entries left open</th><th>ending</th></tr>\n\
        </thead>\n<tbody>\n",
    )
}

// Up to the order of the parts.
fn put_start(out: &mut [u8], at: usize) -> usize
    ensures { (out.new, result) ≡ write (out.old, at) (document_head ++ style_parts) }
{
    let a = text::put_all(
        out,
        at,
        b"<!DOCTYPE html>\n\
        <html xmlns=\"http://www.w3.org/1999/xhtml\" lang=\"en\" xml:lang=\"en\">\n\
        <head>\n\
        <meta charset=\"utf-8\"/>\n\
        <title>Tuning sheet</title>\n\
        <style>\n",
    );
    text::put_all(
        out,
        a,
        b"body{font:9pt sans-serif;color:black;background:white;max-width:190mm;margin:0 auto;padding:4mm;display:flex;flex-direction:column}\n\
        header{order:1}\n\
        #stack{order:2}\n\
        #sources{order:3}\n\
        #meaning{order:4}\n\
        #traces{order:5}\n",
    )
}
