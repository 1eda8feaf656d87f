//! What is the same in each page: how it begins, how it looks, and how it ends.

/// Up to the title. No request may leave a page.
pub(crate) const PAGE_START: &str = "<!DOCTYPE html>
<html lang=\"en\">
<head>
<meta charset=\"utf-8\">
<meta name=\"viewport\" content=\"width=device-width, initial-scale=1\">
<meta name=\"color-scheme\" content=\"light dark\">
<meta http-equiv=\"Content-Security-Policy\" content=\"default-src 'none'; style-src 'unsafe-inline'; script-src 'unsafe-inline'\">
<title>";

/// From behind the title to the shapes.
pub(crate) const STYLE: &str = "</title>
<style>
:root { --paper: #fff; --ink: #111; --faint: #666; --light: #fff; --dark: #c9c9c9 }
@media (prefers-color-scheme: dark) { @media screen {
  :root { --paper: #1c1c1c; --ink: #e8e8e8; --faint: #a0a0a0; --light: #d8d8d8; --dark: #8f8f8f } } }
body { margin: 1rem; background: var(--paper); color: var(--ink); font: 1rem/1.35 Georgia, serif; overflow-wrap: anywhere }
h1 { font-size: 1.4rem; text-align: center; margin: 0 0 1rem }
h2 { font-size: 1.1rem }
main { display: grid; grid-template-columns: repeat(auto-fill, minmax(min(17rem, 100%), 1fr)); gap: 1.5rem 2rem }
figure { margin: 0; break-inside: avoid }
figure svg { display: block; width: 100%; color: var(--ink) }
.l { fill: var(--light) }
.d { fill: var(--dark) }
figcaption { padding-left: 5% }
cite, small, code { display: block }
cite:empty, small:empty { display: none }
code { font-size: .7rem; color: var(--faint); cursor: copy }
code:hover { color: inherit }
section p { margin: .2rem 0 }
section { max-width: 45rem; margin: 2rem auto 0 }
@page { margin: 10mm 14mm }
@media print {
  body { margin: 0; font-size: 9pt }
  h1 { font-size: 14pt; margin-bottom: 2mm }
  main { grid-template-columns: repeat(3, 50mm); justify-content: space-between; gap: 2mm }
  code { display: none }
  section { break-before: page; max-width: none }
  section div { columns: 2 }
}
</style>
</head>
<body>
<svg width='0' height='0' aria-hidden='true'>
";

/// From behind the last section: a click on a record copies it.
pub(crate) const PAGE_END: &str = "<script>
addEventListener('click', function (event) {
  if (event.target.tagName !== 'CODE') return;
  getSelection().selectAllChildren(event.target);
  document.execCommand('copy');
});
</script>
</body>
</html>
";
